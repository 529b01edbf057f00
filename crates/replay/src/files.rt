// The list of calls on corpus files: each line is one call of the host, made and compared with what the list says
// of it.
use crate::came::{Answered, Came, Compare};
use arrayvec::ArrayVec;
use lists::fields::{all_of, from, number_at, wide};
use lists::lines::LONGEST;

// The most zeros at the end of a file, room for the longest file, and for the longest buffer.
const ZEROS: usize = 70000;

const FILE: usize = LONGEST + ZEROS;

const ROOM: usize = 100;

// The bytes of an answer, as C gets them, and what stands in it where a thread number is unused.
const ANSWER: usize = 79;

const UNUSED: u8 = 255;

// The byte of the verdict where the file is refused; the judge's own verdicts have no such.
const REFUSED: u8 = 4;

// A buffer before the call: a number of its own at each place.
fn marked() -> [u8; ROOM] {
    let mut buffer = [0; ROOM];
    for (byte, marker) in buffer.iter_mut().zip(100..200) {
        *byte = marker;
    }
    buffer
}

// A call's number, and the bytes that it writes where that is 0, up to the thread numbers that are unused.
#[derive(Drop)]
struct Said {
    number: Option<u32>,
    written: ArrayVec<u8, ANSWER>,
}

// R k a1 … ak to the end of the line
fn said_at(fields: &[i64]) -> Option<Said> {
    let written = all_of(from(fields, 2))?;
    if number_at(fields, 1) != Some(written.len()) {
        return None;
    }
    let number = number_at(fields, 0);
    Some(Said { number, written })
}

impl Said {
    // What a buffer has to hold after such a call.
    fn due(&self) -> [u8; ROOM] {
        let mut due = marked();
        if self.number == Some(0) {
            for byte in due.iter_mut().take(ANSWER) {
                *byte = UNUSED;
            }
            for (byte, &written) in due.iter_mut().zip(self.written.as_slice()) {
                *byte = written;
            }
        }
        due
    }

    // What is said of the call: a capture is judged, the file is refused, or the call is; as a place in the tally, where
    // three calls of any list have theirs.
    fn outcome(&self) -> usize {
        match (self.number, self.written.as_slice()) {
            (Some(0), [REFUSED, ..]) => 1,
            (Some(0), _) => 0,
            _ => 2,
        }
    }
}

// Storage for a file, of zeros. Handed out by a function, so that only its length is known where it is lent.
fn blank() -> [u8; FILE] {
    [0; FILE]
}

// MODEL HIGH LOW ROOM Z n f1 … fn R k a1 … ak
fn answered_at(line: &[i64]) -> Option<Answered> {
    let model: u32 = number_at(line, 0)?;
    let high: u32 = number_at(line, 1)?;
    let low: u32 = number_at(line, 2)?;
    let budget = wide(u64::from(high), u64::from(low));
    let room: usize = number_at(line, 3)?;
    let zeros: usize = number_at(line, 4)?;
    let count: usize = number_at(line, 5)?;
    let (bytes, rest) = from(line, 6).split_at_checked(count)?;
    let said = said_at(rest)?;
    if zeros > ZEROS {
        return None;
    }
    // The bytes are laid over zeros, of which so many count as the file has behind them: a file that is handed on by value
    // would cost more than the call.
    let mut storage = blank();
    for (place, &byte) in storage.iter_mut().zip(bytes) {
        *place = u8::try_from(byte).ok()?;
    }
    let file = storage.get(..bytes.len() + zeros)?;
    let mut buffer = marked();
    let answer = buffer.get_mut(..room)?;
    let number = host::kilteshva_judge(file, model, budget, answer);
    Some(Answered {
        group: (model as usize).min(2),
        call: said.outcome(),
        agrees: Some(number) == said.number && buffer == said.due(),
    })
}

#[derive(Clone, Copy, Default)]
pub struct Files;

impl Compare for Files {
    fn compare(&mut self, line: &[i64]) -> Option<Came> {
        let answered = answered_at(line)?;
        Some(Came::Answered(answered))
    }
}
