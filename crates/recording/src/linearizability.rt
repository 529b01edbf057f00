// A tester of linearizability: it also notes, with each operation, what had completed before it was invoked.
ghost use Rattle.recording.specs.Testers.{shaped_tester, new_linearizability, linearizability_invoke, linearizability_return, linearizability_held, linearizability_noted};

use crate::consistency_tester::{After, ConsistencyTester, New, record_event};
use families::event::Event;
use families::{Object, Op, Ret};
use shape::look_at;
use shape::notes::{NOTES, note, noted};
use stepping::histories::{History, begin};

// `notes` has at `i * THREADS + u` how many operations of thread u had completed when operation i was
// invoked, and 0 for its own thread. They are one list beside the history, since `note_at`, by which theorems read them,
// and the shape of a record (`NotesInShape`) take such a list.
#[derive(Clone, Copy)]
pub struct LinearizabilityTester {
    pub history: History,
    pub notes: [u8; NOTES],
}

impl ConsistencyTester for LinearizabilityTester {
    ghost begun = { new_linearizability };

    ghost invoked = { linearizability_invoke };

    ghost returned = { linearizability_return };

    ghost held = { linearizability_held };

    ghost noted = { linearizability_noted };

    ghost shaped = { shaped_tester };

    #[tactic(auto, unfolding(crate::specs::Testers::new_linearizability))]
    fn new(start: Object) -> New<LinearizabilityTester> {
        let begun = begin(start);
        New {
            made: begun.made,
            tester: LinearizabilityTester {
                history: begun.history,
                notes: [0; NOTES],
            },
        }
    }

    // With the operation, its notes.
    fn on_invoke(self, thread: u32, op: Op) -> After<LinearizabilityTester> {
        let shaped = noted(&self.history, &self.notes);
        let step = record_event(self.history, Event::Invoked { thread, op }, shaped);
        let recorded = step.recorded;
        let mut notes = self.notes;
        if recorded.is_ok() {
            note(
                &mut notes,
                &self.history.done,
                self.history.count,
                thread as u8,
            );
        }
        let tester = LinearizabilityTester {
            history: step.history,
            notes,
        };
        After { recorded, tester }
    }

    // The operation keeps its notes.
    #[tactic(auto, unfolding(crate::specs::Testers::linearizability_return))]
    fn on_return(self, thread: u32, ret: Ret) -> After<LinearizabilityTester> {
        let shaped = noted(&self.history, &self.notes);
        let step = record_event(self.history, Event::Returned { thread, ret }, shaped);
        After {
            recorded: step.recorded,
            tester: LinearizabilityTester {
                history: step.history,
                notes: self.notes,
            },
        }
    }

    fn history(self) -> History {
        self.history
    }

    fn notes(&self) -> &[u8; NOTES] {
        &self.notes
    }

    fn is_in_shape(&self) -> bool {
        let shaped = noted(&self.history, &self.notes);
        look_at(&self.history, shaped).is_some()
    }
}
