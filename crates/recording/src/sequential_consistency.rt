// A tester of sequential consistency: it records what happens and keeps no notes. Making one and recording differ from the
// other tester's by the notes, so that each has its own.
ghost use Rattle.std.specs.Prelude.{◌≡◌, ◌*◌, replicate};
ghost use Rattle.values.specs.Sizes.{threads, capacity};
ghost use Rattle.stepping.specs.OneStep.{event_of};
ghost use Rattle.recording.specs.Testers.{new_sequential, sequential_after, sequential_invoke, sequential_return, sequential_held, sequential_shaped};

use crate::consistency_tester::{After, ConsistencyTester, New, record_event};
use families::event::Event;
use families::{Object, Op, Ret};
use shape::look_at;
use shape::notes::NOTES;
use stepping::histories::{History, begin};

#[derive(Clone, Copy)]
pub struct SequentialConsistencyTester {
    pub history: History,
}

impl SequentialConsistencyTester {
    fn record(self, event: Event) -> After<SequentialConsistencyTester>
        ensures { result ≡ sequential_after (event_of (sequential_shaped self) self.history event) }
    {
        let step = record_event(self.history, event, true);
        After {
            recorded: step.recorded,
            tester: SequentialConsistencyTester {
                history: step.history,
            },
        }
    }
}

impl ConsistencyTester for SequentialConsistencyTester {
    ghost begun = { new_sequential };

    ghost invoked = { sequential_invoke };

    ghost returned = { sequential_return };

    ghost held = { sequential_held };

    ghost noted = { λ t. replicate (capacity * threads) 0 };

    ghost shaped = { sequential_shaped };

    #[tactic(auto, unfolding(crate::specs::Testers::new_sequential))]
    fn new(start: Object) -> New<SequentialConsistencyTester> {
        let begun = begin(start);
        New {
            made: begun.made,
            tester: SequentialConsistencyTester {
                history: begun.history,
            },
        }
    }

    #[tactic(auto, unfolding(crate::specs::Testers::sequential_invoke))]
    fn on_invoke(self, thread: u32, op: Op) -> After<SequentialConsistencyTester> {
        self.record(Event::Invoked { thread, op })
    }

    #[tactic(auto, unfolding(crate::specs::Testers::sequential_return))]
    fn on_return(self, thread: u32, ret: Ret) -> After<SequentialConsistencyTester> {
        self.record(Event::Returned { thread, ret })
    }

    fn history(self) -> History {
        self.history
    }

    fn notes(&self) -> &[u8; NOTES] {
        &[0; NOTES]
    }

    fn is_in_shape(&self) -> bool {
        look_at(&self.history, true).is_some()
    }
}
