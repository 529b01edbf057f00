// The recorded operations of a history, and how it begins.
ghost use Rattle.std.specs.Prelude.{◌≡◌};
ghost use Rattle.stepping.specs.Record.{fresh};
ghost use Rattle.stepping.specs.EventSteps.{begun_of};

use families::refusal::check_start;
use families::{Object, Op, Ret, no_op};
use values::refusal::Refusal;
use values::sizes::{OPERATIONS, THREADS};

// An operation of a thread, with its return once it has returned; until then it is in flight.
#[derive(Clone, Copy)]
pub struct Operation {
    pub thread: u8,
    pub op: Op,
    pub outcome: Option<Ret>,
}

// The first `count` operations, in the order of their invocations; `done` has how many each thread has
// completed.
#[derive(Clone, Copy)]
pub struct History {
    pub start: Object,
    // An array with a count beside it, since a tester uses no heap; and no ArrayVec, since a record may say any count,
    // which a look at its shape refuses, and a tester is Copy.
    pub ops: [Operation; OPERATIONS],
    pub count: usize,
    pub done: [u8; THREADS],
    pub valid: bool,
}

// A history with nothing recorded.
#[tactic(auto, unfolding(crate::specs::Record::fresh))]
fn empty(start: Object) -> History
    ensures { result ≡ fresh start }
{
    let blank = Operation {
        thread: 0,
        op: no_op(),
        outcome: None,
    };
    History {
        start,
        ops: [blank; OPERATIONS],
        count: 0,
        done: [0; THREADS],
        valid: true,
    }
}

// A history as it begins, and what its start came to. It is no New of recording's: there the field is a tester, and
// theorems name both by their fields.
#[derive(Clone, Copy)]
pub struct Begun {
    pub made: Result<(), Refusal>,
    pub history: History,
}

// A refused object leaves a fresh history of the one that stands in for it.
#[tactic(auto, unfolding(crate::specs::EventSteps::begun_of))]
pub fn begin(start: Object) -> Begun
    ensures { result ≡ begun_of start }
{
    let made = check_start(start.kind);
    let history = match made {
        Ok(()) => empty(start),
        Err(_) => empty(Object::stand_in(start.kind)),
    };
    Begun { made, history }
}
