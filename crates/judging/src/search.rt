// The search for the first legal order: a loop that places one operation more or goes back by one, whatever
// the family and the model.
ghost use Rattle.std.specs.Prelude.{◌≡◌, true, ◌++◌, length, replicate, ◌≤◌, ◌<◌, ◌-◌, MatchOption};
ghost use Rattle.history.specs.Space.{met};
ghost use Rattle.values.specs.Sizes.{threads, capacity};
ghost use Rattle.stepping.specs.Shape.{shape_of};
ghost use Rattle.recording_meaning.specs.Reading.{notes_of};
ghost use Rattle.judging.specs.Answers.{judged_of, told_of, nobody_there};
ghost use Rattle.judging.specs.Places.{Ready};
ghost use Rattle.judging.specs.Playing.{origin, played, Playable};
ghost use Rattle.judging.specs.SearchStops.{Stops};

use crate::answer::{Answer, Placed, Verdict, is_consistent, nobody, without_order};
use crate::index::{Index, completed, counted};
use families::placing::{act, fits, given, held_of, take_back};
use shape::notes::NOTES;
use stepping::histories::{History, Operation};
use values::held::{Held, Undo};
use values::sizes::{OPERATIONS, THREADS};

// What takes the search back over one placement.
#[derive(Clone, Copy)]
pub struct Level {
    pub held: Held,
    pub undo: Undo,
    pub left: u32,
}

// How a search ended, how many operations were placed then, and the attempts made. The path that `depth` measures
// is a lent array, and no Vec, since the judge has no heap: path, levels and progress go back together by the one depth, so
// that an ArrayVec for one of them would be no plainer.
#[derive(Clone, Copy)]
pub struct Stopped {
    pub verdict: Verdict,
    pub depth: usize,
    pub attempts: u64,
}

// The first thread from `from` on that has an operation to place.
fn ready(started: &[u8; THREADS], progress: &[u8; THREADS], from: usize) -> Option<usize>
    requires { from ≤ threads }
    ensures { MatchOption result (Ready started.now progress.now from threads) (λ k. (k < threads) × Ready started.now progress.now from k) }
{
    for k in from..THREADS {
        if progress[k] < started[k] {
            return Some(k);
        }
    }
    None
}

// Whether all that the operation at a place notes is placed.
fn allowed(notes: &[u8; NOTES], at: usize, progress: &[u8; THREADS]) -> bool
    requires { at < capacity }
    ensures { result ≡ met (notes_of notes.now at) progress.now }
{
    let base = at * THREADS;
    for u in 0..THREADS {
        if progress[u] < notes[base + u] {
            return false;
        }
    }
    true
}

// Searches within the budget. `path` has the threads of the operations placed. The loop counts nothing, but goes
// back and forth, so that no iterator stands for it.
fn run(index: &Index, notes: &[u8; NOTES], path: &mut [u8; OPERATIONS], budget: u64) -> Stopped
    ensures { Stops (judged_of (notes_of notes.now) index.now.history.now budget) index.now.history.now path.new result }
{
    let start = index.history.start;
    let mut items = start.items;
    let mut held = held_of(start.kind);
    let mut left = completed(&index.history.done);
    let mut progress = [0u8; THREADS];
    let empty = Level {
        held: Held {
            value: 0,
            height: 0,
        },
        undo: Undo { cell: 0, was: 0 },
        left: 0,
    };
    let mut levels = [empty; OPERATIONS];
    let mut depth = 0;
    let mut next = 0;
    let mut attempts = 0;
    loop {
        if left == 0 {
            return Stopped {
                verdict: Verdict::Order,
                depth,
                attempts,
            };
        }
        if let Some(k) = ready(&index.started, &progress, next) {
            if attempts == budget {
                return Stopped {
                    verdict: Verdict::Undecided,
                    depth,
                    attempts,
                };
            }
            attempts += 1;
            let p = progress[k];
            let at = index.place(k, p);
            let Operation { op, outcome, .. } = index.history.ops[at];
            if allowed(notes, at, &progress) && fits(&items, held, op, outcome) {
                let acted = act(&mut items, held, op);
                levels[depth] = Level {
                    held,
                    undo: acted.undo,
                    left,
                };
                path[depth] = k as u8;
                depth += 1;
                progress[k] = p + 1;
                left -= counted(outcome);
                held = acted.held;
                next = 0;
            } else {
                next = k + 1;
            }
        } else {
            if depth == 0 {
                return Stopped {
                    verdict: Verdict::NoOrder,
                    depth,
                    attempts,
                };
            }
            depth -= 1;
            let level = levels[depth];
            take_back(&mut items, level.undo);
            held = level.held;
            left = level.left;
            let th = path[depth] as usize;
            progress[th] -= 1;
            next = th + 1;
        }
    }
}

// The order that the threads of a path make, with its returns, and nobody behind it.
fn order_of(index: &Index, path: &[u8]) -> [Placed; OPERATIONS]
    requires within { length path.now ≤ capacity }
    requires playable { Playable index.now.history.now (origin index.now.history.now) path.now }
    ensures { result ≡ played index.now.history.now (origin index.now.history.now) path.now ++ replicate (capacity - length path.now) nobody_there }
{
    let start = index.history.start;
    let mut items = start.items;
    let mut held = held_of(start.kind);
    let mut progress = [0u8; THREADS];
    let mut order = [nobody(); OPERATIONS];
    for (d, thread) in path.iter().enumerate() {
        let own = *thread as usize;
        let p = progress[own];
        let Operation { op, outcome, .. } = index.history.ops[index.place(own, p)];
        let ret = given(&items, held, op, outcome);
        order[d] = Placed {
            thread: *thread,
            ret,
        };
        held = act(&mut items, held, op).held;
        progress[own] = p + 1;
    }
    order
}

// The verdict on a history in shape, with those notes. The two are no struct: one tester keeps notes and the other
// none, so that it would be put together at each call and taken apart in the next function.
pub(crate) fn search(history: History, notes: &[u8; NOTES], budget: u64) -> Answer
    requires { shape_of history ≡ true }
    ensures { result ≡ told_of (judged_of (notes_of notes.now) history budget) }
{
    let index = Index::of(&history);
    let mut path = [0u8; OPERATIONS];
    let Stopped {
        verdict,
        depth,
        attempts,
    } = run(&index, notes, &mut path, budget);
    if is_consistent(verdict) {
        Answer {
            verdict,
            attempts,
            length: depth,
            order: order_of(&index, &path[..depth]),
        }
    } else {
        without_order(verdict, attempts)
    }
}
