// Why an object, an operation or a return is refused. A check answers `Result<(), Refusal>`.
ghost use Rattle.std.specs.Prelude.{◌≡◌};
ghost use Rattle.values.specs.Checks.{number_of};

#[derive(Clone, Copy, PartialEq, Eq)]
pub enum Refusal {
    OtherFamily,
    NoRoom,
    StartTooDeep,
    OutOfShape,
}

// The number of a refusal in document 01.
impl From<Refusal> for u8 {
    ghost from_gives = { λ refusal n. n ≡ number_of refusal };

    #[tactic(auto, unfolding(crate::specs::Checks::number_of))]
    fn from(refusal: Refusal) -> u8 {
        match refusal {
            Refusal::OtherFamily => 3,
            Refusal::NoRoom => 7,
            Refusal::StartTooDeep => 8,
            Refusal::OutOfShape => 9,
        }
    }
}
