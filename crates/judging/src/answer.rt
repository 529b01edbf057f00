// What a judge answers.
ghost use Rattle.std.specs.Prelude.{◌≡◌};
ghost use Rattle.judging.specs.Answers.{number_of, is_consistent, nobody_there, without_order};

use families::{Ret, no_ret};
use values::sizes::OPERATIONS;

// With its number in document 01.
#[derive(Clone, Copy, PartialEq, Eq)]
pub enum Verdict {
    Order = 0,
    NoOrder = 1,
    Undecided = 2,
    Invalid = 3,
}

impl From<Verdict> for u8 {
    ghost from_gives = { λ verdict n. n ≡ number_of verdict };

    #[tactic(auto, unfolding(crate::specs::Answers::number_of))]
    fn from(verdict: Verdict) -> u8 {
        verdict as u8
    }
}

// Whether some order explains the history, as far as the verdict tells.
#[tactic(auto, unfolding(crate::specs::Answers::is_consistent))]
pub fn is_consistent(verdict: Verdict) -> bool
    ensures { result ≡ is_consistent verdict }
{
    matches!(verdict, Verdict::Order)
}

// A place of an order: a thread, and the return that its operation has there.
#[derive(Clone, Copy, PartialEq, Eq)]
pub struct Placed {
    pub thread: u8,
    pub ret: Ret,
}

// The thread of a place that is not taken. It is no Option: this is the byte that the theorem `calls` says of the host's answer.
pub const NOBODY: u8 = 255;

pub(crate) fn nobody() -> Placed
    ensures { result ≡ nobody_there }
{
    Placed {
        thread: NOBODY,
        ret: no_ret(),
    }
}

// `order` has `length` places, and nobody behind them: an array with its length, and no Vec, since the judge has no heap,
// and no ArrayVec, since an answer is Copy and its clause says what stands in all places.
#[derive(Clone, Copy)]
pub struct Answer {
    pub verdict: Verdict,
    pub attempts: u64,
    pub length: usize,
    pub order: [Placed; OPERATIONS],
}

// An answer without an order.
#[tactic(auto, unfolding(crate::specs::Answers::without_order))]
pub(crate) fn without_order(verdict: Verdict, attempts: u64) -> Answer
    ensures { result ≡ without_order verdict attempts }
{
    Answer {
        verdict,
        attempts,
        length: 0,
        order: [nobody(); OPERATIONS],
    }
}
