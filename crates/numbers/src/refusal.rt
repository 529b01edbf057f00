// Why a file is refused; what recording refuses has its own reasons.
ghost use Rattle.std.specs.Prelude.{◌≡◌};
ghost use Rattle.numbers.specs.FileRefusals.{number_of};

#[derive(Clone, Copy, PartialEq, Eq)]
pub enum Refusal {
    TooLong,
    Unopened,
    Cut,
    TooBig,
    Unknown,
    StartTooDeep,
}

// Its number in document 01.
#[tactic(auto, unfolding(crate::specs::FileRefusals::number_of))]
impl From<Refusal> for u8 {
    ghost from_gives = { λ why number. number ≡ number_of why };

    fn from(why: Refusal) -> u8 {
        match why {
            Refusal::TooLong => 20,
            Refusal::Unopened => 21,
            Refusal::Cut => 22,
            Refusal::TooBig => 23,
            Refusal::Unknown => 24,
            Refusal::StartTooDeep => 25,
        }
    }
}
