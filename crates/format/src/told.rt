// What is told by a number inside its family, and what follows it by the family's table: operations and returns.
ghost use Rattle.format.specs.Told.{told};
ghost use Rattle.format.specs.Reads.{Reads};

use crate::cursor::Cursor;
use families::Kind;
use families::family::OfFamily;
use numbers::refusal::Refusal;

#[tactic(auto, using(crate::proofs::Reading::steps), unfolding(crate::specs::Told::told))]
impl Cursor<'_> {
    // An operation or a return, of the family of `kind`.
    pub(crate) fn told<T: OfFamily>(&mut self, kind: Kind) -> Result<T, Refusal>
        ensures { Reads (told T.form_of T.told_of kind) self.old self.new result }
    {
        let number = self.number()?;
        let coded = self.payload(number, T::form(kind, number))?;
        Ok(T::told(kind, coded))
    }
}
