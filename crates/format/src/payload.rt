// What follows the number of an operation, a return or an object, by its form: nothing, a number, or a flag and, where it
// is 1, a number.
ghost use Rattle.format.specs.Format.{single, maybe, payload};
ghost use Rattle.format.specs.Reads.{Reads};

use crate::cursor::Cursor;
use numbers::refusal::Refusal;
use values::coded::{Coded, Form};

// The flag behind which a number follows.
const FOLLOWED: u32 = 1;

#[tactic(auto, using(crate::proofs::Reading::steps), unfolding(crate::specs::Format::single, crate::specs::Format::maybe, crate::specs::Format::payload))]
impl Cursor<'_> {
    // One number: a value or a length.
    fn single(&mut self, number: u32) -> Result<Coded, Refusal>
        ensures { Reads (single number) self.old self.new result }
    {
        let word = self.number()?;
        Ok(Coded::single(number, word))
    }

    // A flag and, where it is 1, a number. The flag is judged before what follows it is read.
    fn flagged(&mut self, number: u32) -> Result<Coded, Refusal>
        ensures { Reads (maybe number) self.old self.new result }
    {
        match self.number()? {
            0 => Ok(Coded::bare(number)),
            FOLLOWED => self.single(number),
            _ => Err(Refusal::Unknown),
        }
    }

    // What follows a number, where it has that form. Inlined, since loading took up to 8 % longer with a call than before.
    #[inline(always)]
    pub(crate) fn payload(&mut self, number: u32, form: Form) -> Result<Coded, Refusal>
        ensures { Reads (payload number form) self.old self.new result }
    {
        match form {
            Form::Unknown => Err(Refusal::Unknown),
            Form::Bare => Ok(Coded::bare(number)),
            Form::Number => self.single(number),
            Form::Flagged => self.flagged(number),
        }
    }
}
