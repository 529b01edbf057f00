// The bytes of a file, and up to where they are read.
ghost use Rattle.std.specs.Prelude.{◌≡◌, ◌≤◌, length};

use numbers::read_number;
use numbers::refusal::Refusal;
use values::value::signed_of;

// A field is read by a method, which moves the place behind it; where it is refused, nothing is said of the place.
#[derive(Drop)]
pub(crate) struct Cursor<'a> {
    bytes: &'a [u8],
    pub(crate) at: usize,
    ghost inside: { at ≤ length bytes.now },
}

impl<'a> Cursor<'a> {
    ghost use Rattle.numbers.specs.Number.{number};
    ghost use Rattle.format.specs.Format.{value};
    ghost use Rattle.format.specs.Reads.{Reads};

    // Before the byte at a place.
    pub(crate) fn new(bytes: &'a [u8], at: usize) -> Cursor<'a>
        requires { at ≤ length bytes.now }
        ensures bytes { result.bytes.now ≡ bytes.now }
        ensures at { result.at ≡ at }
    {
        Cursor { bytes, at }
    }

    pub(crate) fn number(&mut self) -> Result<u32, Refusal>
        ensures { Reads number self.old self.new result }
    {
        let read = read_number(&self.bytes[self.at..])?;
        self.at += read.next;
        Ok(read.value)
    }

    #[tactic(auto, using(crate::proofs::Reading::steps), unfolding(crate::specs::Format::value))]
    pub(crate) fn value(&mut self) -> Result<i32, Refusal>
        ensures { Reads value self.old self.new result }
    {
        Ok(signed_of(self.number()?))
    }
}
