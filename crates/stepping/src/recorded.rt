// What recording an event, or making a tester, comes to: `Ok(())`, or why it is refused; with document 01's numbers.
ghost use Rattle.std.specs.Prelude.{◌≡◌};
ghost use Rattle.stepping.specs.declared.recorded.Reason.TheVariants.{NotOwn};
ghost use Rattle.stepping.specs.EventSteps.{reason_number, number_by};

use values::refusal::Refusal;

// Why an event is refused.
#[derive(Clone, Copy, PartialEq, Eq)]
pub enum Reason {
    AlreadyInvalid,
    NoSuchThread,
    NotOwn(Refusal),
    InFlight,
    NothingInFlight,
    Full,
    OutOfShape,
}

// What the object refuses is refused with its reason.
impl From<Refusal> for Reason {
    ghost from_gives = { λ refusal reason. reason ≡ NotOwn refusal };

    fn from(refusal: Refusal) -> Reason {
        Reason::NotOwn(refusal)
    }
}

// The number of a reason in document 01.
impl From<Reason> for u8 {
    ghost from_gives = { λ reason n. n ≡ reason_number reason };

    #[tactic(auto, unfolding(crate::specs::EventSteps::reason_number))]
    fn from(reason: Reason) -> u8 {
        match reason {
            Reason::AlreadyInvalid => 1,
            Reason::NoSuchThread => 2,
            Reason::NotOwn(refusal) => refusal.into(),
            Reason::InFlight => 4,
            Reason::NothingInFlight => 5,
            Reason::Full => 6,
            Reason::OutOfShape => 9,
        }
    }
}

// The number of what an event (a `Reason`) or a start (a `Refusal`) came to: 0 where it is not refused. Result and u8 are
// std's, so that this can't be a From.
pub fn number<R: Into<u8>>(came: Result<(), R>) -> u8
    ensures { number_by R.converts came result }
{
    match came {
        Ok(()) => 0,
        Err(refused) => refused.into(),
    }
}
