// The traces of document 01 for the bench wall, run, a line each to hold beside it. They stand in data/traces.txt, which
// begins with what its lines say. Behind them stand the refusals that no trace draws: 3, 7, 8 and each cause of 9.
#![tactic(auto)]

mod bare;
mod files;
mod records;
mod script;
mod seen;
mod telling;
mod trace;
mod verdicts;

use lists::input::read_full;
use std::{fs, io};

// Room for the traces. Memory is fixed, so that reading them can't want for it.
const TEXT: usize = 16384;

// Handed out by a function, so that only its length is known where it is lent. As replay's, of another length: one for both
// would be public in lists and owe a clause, which the check would go through byte by byte.
fn blank() -> [u8; TEXT] {
    [0; TEXT]
}

fn main(rt: HostRuntime) -> io::Result<()> {
    let path = "traces.txt";
    match fs::open(&rt, path) {
        Ok(mut file) => {
            let mut text = blank();
            let length = read_full(&mut file, &mut text)?;
            script::run(&rt, &text[..length])
        }
        Err(error) => eprintln!(rt; "{path}: {error}"),
    }
}
