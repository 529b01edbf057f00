// The text of the traces, gone through byte by byte: remarks are passed over, what is quoted is told as it stands, and
// each line of numbers is one thing to do.
use crate::trace::Trace;
use lists::lines::Line;
use std::io;

// What a byte belongs to.
#[derive(Clone, Copy, PartialEq, Eq)]
enum Part {
    Numbers,
    Quoted,
    Remark,
}

impl Part {
    // What the next byte belongs to. Behind what is quoted nothing more counts up to the line's end.
    fn after(self, byte: u8) -> Self {
        match (self, byte) {
            (Part::Numbers, b'#') => Part::Remark,
            (Part::Numbers, b'"') => Part::Quoted,
            (Part::Quoted, b'"') => Part::Remark,
            (Part::Remark, b'\n') => Part::Numbers,
            _ => self,
        }
    }
}

pub fn run(rt: &impl Print, text: &[u8]) -> io::Result<()> {
    let mut line = Line::new();
    let mut trace = Trace::new();
    let mut part = Part::Numbers;
    for &byte in text {
        let next = part.after(byte);
        match (part, next) {
            (Part::Quoted, Part::Quoted) => rt.write_all(&[byte])?,
            (Part::Numbers, Part::Numbers) => {
                line.feed(byte);
                if byte == b'\n' {
                    trace.run(rt, line.numbers())?;
                    line.clear();
                }
            }
            _ => (),
        }
        part = next;
    }
    Ok(())
}
