// The operations of each thread, in its own order.
ghost use Rattle.std.specs.Prelude.{◌≡◌, true, ◌≤◌, ◌<◌, length, slice_index};
ghost use Rattle.history.specs.Left.{one_of};
ghost use Rattle.values.specs.Sizes.{threads, capacity};
ghost use Rattle.families.specs.Families.{families};
ghost use Rattle.stepping.specs.Shape.{shape_of};
ghost use Rattle.recording_meaning.specs.Reading.{return_in};
ghost use Rattle.judging.specs.Places.{Whole, Started, Slotted, places_of, sum_of};

use families::Ret;
use stepping::histories::History;
use values::sizes::{OPERATIONS, THREADS};

// A place for each thread and each of its operations.
const SLOTS: usize = THREADS * OPERATIONS;

// A history in shape, with where each thread's operations stand in it: thread t's k-th one at
// `slot[t * OPERATIONS + k]`. `started` has how many it has. Arrays with counts, and no ArrayVec for each thread: an index is
// Copy, and the search asks for a place by thread and number in one look.
#[derive(Clone, Copy)]
pub struct Index<'a> {
    pub history: &'a History,
    pub slot: [u8; SLOTS],
    pub started: [u8; THREADS],
    ghost sized: { Whole history.now },
    ghost in_shape: { shape_of history.now ≡ true },
    ghost counts: { Started history.now started },
    ghost at: { Slotted history.now slot },
}

impl<'a> Index<'a> {
    pub(crate) fn of(history: &'a History) -> Index<'a>
        requires sized { Whole history.now }
        requires in_shape { shape_of history.now ≡ true }
        ensures { result.history.now ≡ history.now }
    {
        let mut slot = [0; SLOTS];
        let mut started = [0u8; THREADS];
        for i in 0..history.count {
            let own = history.ops[i].thread as usize;
            let k = started[own];
            slot[own * OPERATIONS + k as usize] = i as u8;
            started[own] = k + 1;
        }
        Index {
            history,
            slot,
            started,
        }
    }

    // Where in the history the thread has its operation of that number.
    pub(crate) fn place(&self, thread: usize, number: u8) -> usize
        requires { (thread < threads) × (number < length (places_of self.now.history.now thread)) }
        ensures place { result ≡ slice_index (places_of self.now.history.now thread) number }
        ensures within { result < capacity }
    {
        self.slot[thread * OPERATIONS + number as usize] as usize
    }
}

// 1 for an operation that has returned.
pub(crate) fn counted(outcome: Option<Ret>) -> u32
    ensures { (result ≡ one_of families (return_in outcome)) × (result ≤ 1) }
{
    u32::from(outcome.is_some())
}

// How many operations have returned, of which `done` counts each thread's.
pub(crate) fn completed(done: &[u8; THREADS]) -> u32
    ensures { result ≡ sum_of done.now }
{
    done.iter().map(|n| u32::from(*n)).sum()
}
