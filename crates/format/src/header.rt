// The header: the opening, the object and what it starts with.
ghost use Rattle.std.specs.Prelude.{◌≡◌, ◌≤◌};
ghost use Rattle.values.specs.Sizes.{start_room};
ghost use Rattle.format.specs.Format.{single_start, values, counted_start, start, header};
ghost use Rattle.format.specs.ReadAnswers.{unread, as_header};
ghost use Rattle.format.specs.Reads.{Reads};

use crate::cursor::Cursor;
use families::Object;
use families::codes::{start_form, start_from};
use numbers::Got;
use numbers::refusal::Refusal;
use values::coded::{Coded, Form, StartForm};
use values::sizes::{ROOM, START};

// A file has at most this many bytes.
pub const LONGEST: usize = 65536;

// The bytes that open a file, 52 41 57 31.
const OPENING: &[u8] = b"RAW1";

// Why a header is refused, and what a tester starts with then: the default register.
#[derive(Clone, Copy)]
pub struct Unread {
    pub why: Refusal,
    pub start: Object,
}

impl From<Refusal> for Unread {
    ghost from_gives = { λ why refused. refused ≡ unread why };

    fn from(why: Refusal) -> Unread {
        Unread {
            why,
            start: Object::default_register(),
        }
    }
}

#[tactic(auto, using(crate::proofs::Reading::steps), unfolding(crate::specs::Format::single_start, crate::specs::Format::counted_start, crate::specs::Format::start))]
impl Cursor<'_> {
    // A start that is a number, or a flag and a number; there are no items then.
    fn single_start(&mut self, number: u32, form: Form) -> Result<Object, Refusal>
        ensures { Reads (single_start number form) self.old self.new result }
    {
        let coded = self.payload(number, form)?;
        Ok(start_from(coded, [0; ROOM]))
    }

    // A start of so many values, bottom first.
    fn values(&mut self, number: u32, count: u32) -> Result<Object, Refusal>
        requires { count ≤ start_room }
        ensures { Reads (values number count) self.old self.new result }
    {
        let mut items = [0; ROOM];
        for place in 0..count as usize {
            items[place] = self.value()?;
        }
        let coded = Coded {
            number,
            count,
            word: 0,
        };
        Ok(start_from(coded, items))
    }

    // A count, and the values; a count that is too high is refused before they are read.
    fn counted_start(&mut self, number: u32) -> Result<Object, Refusal>
        ensures { Reads (counted_start number) self.old self.new result }
    {
        let count = self.number()?;
        if START < count {
            return Err(Refusal::StartTooDeep);
        }
        self.values(number, count)
    }

    // The object, by its number, and its start.
    fn start(&mut self) -> Result<Object, Refusal>
        ensures { Reads start self.old self.new result }
    {
        let number = self.number()?;
        match start_form(number) {
            StartForm::Unknown => Err(Refusal::Unknown),
            StartForm::Number => self.single_start(number, Form::Number),
            StartForm::Flagged => self.single_start(number, Form::Flagged),
            StartForm::Values => self.counted_start(number),
        }
    }
}

// The header of a file: the object that it starts with, and where its events begin.
pub fn read_header(file: &[u8]) -> Result<Got<Object>, Unread>
    ensures { result ≡ as_header (header file.now) }
{
    let opened = file.starts_with(OPENING);
    let long = LONGEST < file.len();
    if long {
        return Err(Unread::from(Refusal::TooLong));
    }
    if !opened {
        return Err(Unread::from(Refusal::Unopened));
    }
    let mut cursor = Cursor::new(file, OPENING.len());
    let value = cursor.start()?;
    Ok(Got {
        value,
        next: cursor.at,
    })
}
