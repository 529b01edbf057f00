// Both testers, fed the same events, for the programs that compare them with what is known of the events.
#![tactic(auto)]

ghost use Rattle.std.specs.Prelude.{◌≡◌};
ghost use Rattle.recording.specs.Calls.{held_by};
ghost use Rattle.testers.specs.PairedCalls.{answer, joined_of, recorded_of, new_of, invoke_of, return_of, invret_of};

use families::{Object, Op, Ret};
use recording::consistency_tester::{After, ConsistencyTester};
use recording::linearizability::LinearizabilityTester;
use recording::sequential_consistency::SequentialConsistencyTester;
use stepping::recorded::number;

#[derive(Clone, Copy)]
pub struct Testers {
    pub linearizability: LinearizabilityTester,
    pub sequential: SequentialConsistencyTester,
}

// The number that a call gave, 0 where it refused nothing, and how many operations the tester then holds. Events and
// starts are refused for reasons of their own; a list tells both by document 01's number, and so does the definition `answer`.
#[derive(Clone, Copy, PartialEq, Eq)]
pub struct Answer {
    pub number: u8,
    pub len: usize,
}

impl Answer {
    // What a call that gave the number and left that tester comes to.
    fn of<T: ConsistencyTester>(number: u8, tester: T) -> Answer
        ensures { result ≡ answer number (held_by T.shaped T.held tester) }
    {
        Answer {
            number,
            len: tester.len(),
        }
    }
}

// What both answered, and both as the call left them.
#[derive(Clone, Copy)]
pub struct Answers {
    pub linearizability: Answer,
    pub sequential: Answer,
    pub testers: Testers,
}

fn joined(
    first: u8,
    linearizability: LinearizabilityTester,
    second: u8,
    sequential: SequentialConsistencyTester,
) -> Answers
    ensures { result ≡ joined_of first linearizability second sequential }
{
    Answers {
        linearizability: Answer::of(first, linearizability),
        sequential: Answer::of(second, sequential),
        testers: Testers {
            linearizability,
            sequential,
        },
    }
}

fn recorded(
    first: After<LinearizabilityTester>,
    second: After<SequentialConsistencyTester>,
) -> Answers
    ensures { result ≡ recorded_of first second }
{
    let a = number(first.recorded);
    let b = number(second.recorded);
    joined(a, first.tester, b, second.tester)
}

impl Testers {
    // Fresh testers of an object.
    pub fn new(start: Object) -> Answers
        ensures { result ≡ new_of start }
    {
        let first = LinearizabilityTester::new(start);
        let second = SequentialConsistencyTester::new(start);
        let a = number(first.made);
        let b = number(second.made);
        joined(a, first.tester, b, second.tester)
    }

    #[tactic(auto, unfolding(crate::specs::PairedCalls::invoke_of))]
    pub fn on_invoke(self, thread: u32, op: Op) -> Answers
        ensures { result ≡ invoke_of self thread op }
    {
        recorded(
            self.linearizability.on_invoke(thread, op),
            self.sequential.on_invoke(thread, op),
        )
    }

    #[tactic(auto, unfolding(crate::specs::PairedCalls::return_of))]
    pub fn on_return(self, thread: u32, ret: Ret) -> Answers
        ensures { result ≡ return_of self thread ret }
    {
        recorded(
            self.linearizability.on_return(thread, ret),
            self.sequential.on_return(thread, ret),
        )
    }

    #[tactic(auto, unfolding(crate::specs::PairedCalls::invret_of))]
    pub fn on_invret(self, thread: u32, op: Op, ret: Ret) -> Answers
        ensures { result ≡ invret_of self thread op ret }
    {
        recorded(
            self.linearizability.on_invret(thread, op, ret),
            self.sequential.on_invret(thread, op, ret),
        )
    }
}
