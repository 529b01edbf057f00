// The files that the programs read.
ghost use Rattle.std.specs.Prelude.{◌≤◌, length, IfOk};

use std::io;
use std::io::{ErrorKind, Read};

// Reads until the storage is full or the file ends, and says how many bytes at its start were read. Memory is fixed: the
// read_to_end of std takes a vector on the heap.
pub fn read_full<F: Read>(file: &mut F, storage: &mut [u8]) -> io::Result<usize>
    ensures { IfOk result (λ n. n ≤ length storage.new) }
{
    let mut at = 0;
    // A file may never end; as many reads are more than a machine can make.
    for _ in 0..u64::MAX {
        if at >= storage.len() {
            return Ok(at);
        }
        match file.read(&mut storage[at..]) {
            Ok(0) => return Ok(at),
            Ok(n) => at += n,
            Err(error) => {
                if error.kind() != ErrorKind::Interrupted {
                    return Err(error);
                }
            }
        }
    }
    Ok(at)
}
