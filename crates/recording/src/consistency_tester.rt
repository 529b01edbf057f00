// What a tester is, and what both testers share: recording an event, the two calls in turn, and how many operations are held.
ghost use Rattle.std.specs.Prelude.{◌≡◌, ℕ, Bool, List, length};
ghost use Rattle.values.specs.Sizes.{threads, capacity, room};
ghost use Rattle.families.specs.declared.Object.{Object};
ghost use Rattle.families.specs.declared.Op.{Op};
ghost use Rattle.families.specs.declared.Ret.{Ret};
ghost use Rattle.stepping.specs.declared.histories.History.{History};
ghost use Rattle.stepping.specs.Shape.{shaped_with};
ghost use Rattle.stepping.specs.EventSteps.{size_of};
ghost use Rattle.stepping.specs.OneStep.{event_of};
ghost use Rattle.recording.specs.declared.consistency_tester.New.{New};
ghost use Rattle.recording.specs.declared.consistency_tester.After.{After};
ghost use Rattle.recording.specs.Calls.{in_turn, held_by};

use families::event::Event;
use families::{Object, Op, Ret};
use shape::look_at;
use shape::notes::NOTES;
use stepping::histories::History;
use stepping::recorded::Reason;
use stepping::refusal::valid_after;
use stepping::step::{Step, change_of, comes_to, place_for, thread_of};
use values::refusal::Refusal;

// A new tester, and what making it came to; where the start is refused, it is of the default that stands in for it.
#[derive(Clone, Copy)]
pub struct New<T> {
    pub made: Result<(), Refusal>,
    pub tester: T,
}

// The tester after an event, and what recording it came to; a refusal leaves a tester too.
#[derive(Clone, Copy)]
pub struct After<T> {
    pub recorded: Result<(), Reason>,
    pub tester: T,
}

// A tester: it is fed events in any order whatever, and holds the history that they make.
pub trait ConsistencyTester: Copy {
    ghost begun: { Object → New Self };

    ghost invoked: { Self → ℕ → Op → After Self };

    ghost returned: { Self → ℕ → Ret → After Self };

    ghost held: { Self → History };

    ghost noted: { Self → List ℕ };

    ghost shaped: { Self → Bool };

    fn new(start: Object) -> New<Self>
        ensures { result ≡ begun start };

    // Puts an operation of the thread in flight.
    fn on_invoke(self, thread: u32, op: Op) -> After<Self>
        ensures { result ≡ invoked self thread op };

    // Completes the thread's operation in flight.
    fn on_return(self, thread: u32, ret: Ret) -> After<Self>
        ensures { result ≡ returned self thread ret };

    // What is held. Of a tester that is not known, the lengths of its arrays are told by this alone.
    fn history(self) -> History
        ensures is { result ≡ held self }
        ensures sized { (length result.ops ≡ capacity) × (length result.done ≡ threads) × (length result.start.items ≡ room) };

    // What each operation waits for: at `i * THREADS + u` how many operations of thread u had completed when
    // operation i was invoked. A tester that keeps no notes waits for none.
    fn notes(&self) -> &[u8; NOTES]
        ensures { result.now ≡ noted self.now };

    // Whether calls could have made the record; if not, it gets number 9.
    fn is_in_shape(&self) -> bool
        ensures { result ≡ shaped self.now };

    // The two calls in turn.
    #[tactic(auto, unfolding(crate::specs::Calls::in_turn))]
    fn on_invret(self, thread: u32, op: Op, ret: Ret) -> After<Self>
        ensures { result ≡ in_turn invoked returned self thread op ret }
    {
        let after = self.on_invoke(thread, op);
        if after.recorded.is_ok() {
            return after.tester.on_return(thread, ret);
        }
        after
    }

    // How many operations are held, completed and in flight.
    #[tactic(auto, unfolding(crate::specs::Calls::held_by, stepping::specs::EventSteps::size_of))]
    fn len(&self) -> usize
        ensures { result ≡ held_by shaped held self.now }
    {
        if self.is_in_shape() {
            return self.history().count;
        }
        0
    }
}

// Records an event. `noted`: what stands beside the history is in shape.
pub(crate) fn record_event(mut history: History, event: Event, noted: bool) -> Step
    ensures { result ≡ event_of (shaped_with noted history) history event }
{
    let Some(flying) = look_at(&history, noted) else {
        let recorded = Err(Reason::OutOfShape);
        return Step { recorded, history };
    };
    let count = history.count;
    let kind = history.start.kind;
    let recorded = comes_to(event, true, history.valid, kind, &flying, count);
    if recorded.is_ok() {
        let at = place_for(event, &flying, count);
        let t = thread_of(event) as usize;
        let change = change_of(event, history.ops[at], at, count, history.done[t]);
        history.ops[at] = change.operation;
        history.count = change.count;
        history.done[t] = change.done;
        return Step { recorded, history };
    }
    history.valid = valid_after(history.valid, recorded);
    Step { recorded, history }
}
