// The words of a proposed order, replayed place by place on the bare object.
ghost use Rattle.std.specs.Prelude.{◌+◌, ◌≤◌, ◌<◌, ◌≡◌, [], ◌∷◌, length, MatchOption};
ghost use Rattle.values.specs.Sizes.{threads, capacity};
ghost use Rattle.witness.specs.WordsPlayed.{place_of, reaches_of, answered_of, said_yes, settle_of, stage_after, play_of};

use crate::words::{WORDS, describes};
use families::{Object, Op, Ret};
use semantics::{invoke, is_valid_step};
use shape::notes::NOTES;
use stepping::histories::{History, Operation};
use values::coded::Coded;
use values::refusal::Refusal;
use values::sizes::THREADS;

// What became of an operation that may stand there: whether it is completed, and the object that it leaves.
#[derive(Clone, Copy)]
pub struct Settled {
    pub ended: bool,
    pub object: Object,
}

// The replay so far: nothing is placed or the last one is completed, how many operations of each thread are
// placed, and the object.
#[derive(Clone, Copy)]
pub struct Stage {
    pub ended: bool,
    pub progress: [u8; THREADS],
    pub object: Object,
}

// Where the thread has its operation of that number, counted from 0.
fn find(ops: &[Operation], thread: u8, number: u8) -> Option<usize>
    ensures { MatchOption result (length ops.now ≤ place_of ops.now thread number) (λ i. (i < length ops.now) × (i ≡ place_of ops.now thread number)) }
{
    let mut left = number;
    for (i, o) in ops.iter().enumerate() {
        if o.thread == thread {
            if left == 0 {
                return Some(i);
            }
            left -= 1;
        }
    }
    None
}

// Of each thread as many are placed as are wanted. The search has such a test too, but the checker shares no code with it.
fn reaches(wanted: &[u8], from: usize, progress: &[u8; THREADS]) -> bool
    requires { from + threads ≤ length wanted.now }
    ensures { result ≡ reaches_of wanted.now from progress.now }
{
    for u in 0..THREADS {
        if progress[u] < wanted[from + u] {
            return false;
        }
    }
    true
}

#[tactic(auto, unfolding(crate::specs::WordsPlayed::answered_of))]
fn answered(answer: Result<Ret, Refusal>, words: Coded) -> bool
    ensures { result ≡ answered_of answer (words.number ∷ words.count ∷ words.word ∷ []) }
{
    match answer {
        Ok(ret) => describes(ret, words),
        Err(_) => false,
    }
}

#[tactic(auto, unfolding(crate::specs::WordsPlayed::said_yes))]
fn said_yes(said: Result<bool, Refusal>) -> bool
    ensures { result ≡ said_yes said }
{
    matches!(said, Ok(true))
}

// Places an operation: one in flight with the return that the object gives, a completed one with its recorded
// return, which must be right. The words must be those of that return.
fn settle(object: Object, op: Op, outcome: Option<Ret>, words: Coded) -> Option<Settled>
    ensures { result ≡ settle_of object op outcome (words.number ∷ words.count ∷ words.word ∷ []) }
{
    match outcome {
        None => {
            let invoked = invoke(object, op);
            let settled = Settled {
                ended: false,
                object: invoked.object,
            };
            answered(invoked.answer, words).then_some(settled)
        }
        Some(ret) => {
            let stepped = is_valid_step(object, op, ret);
            let settled = Settled {
                ended: true,
                object: stepped.object,
            };
            let right = said_yes(stepped.said) && describes(ret, words);
            right.then_some(settled)
        }
    }
}

// One place more: the thread's next operation, after all that it notes.
fn place(
    history: &History,
    notes: &[u8; NOTES],
    stage: Stage,
    thread: u32,
    words: Coded,
) -> Option<Stage>
    requires { history.now.count ≤ capacity }
    ensures { result ≡ stage_after notes.now history.now stage thread (words.number ∷ words.count ∷ words.word ∷ []) }
{
    let own = thread as usize;
    if own >= THREADS {
        return None;
    }
    let number = stage.progress[own];
    let at = find(&history.ops[..history.count], thread as u8, number)?;
    if !reaches(notes, at * THREADS, &stage.progress) {
        return None;
    }
    let Operation { op, outcome, .. } = history.ops[at];
    let settled = settle(stage.object, op, outcome, words)?;
    let mut progress = stage.progress;
    progress[own] = number + 1;
    Some(Stage {
        ended: settled.ended,
        progress,
        object: settled.object,
    })
}

// Whether the words, four to a place, go through from the initial object and leave every completed operation
// placed, with a completed one last if any. History and notes are no struct, as in the judges' search.
pub(crate) fn replay(history: &History, notes: &[u8; NOTES], order: &[u32]) -> bool
    requires { history.now.count ≤ capacity }
    ensures { result ≡ play_of notes.now history.now order.now }
{
    let mut stage = Stage {
        ended: true,
        progress: [0; THREADS],
        object: history.start,
    };
    let mut rest = order;
    // A place at a time; what is no whole place stays, and has to be nothing.
    while let Some((place_words, after)) = rest.split_at_checked(WORDS) {
        // A place has WORDS words, which are these four: the way out is never taken.
        let [thread, number, count, word] = place_words else {
            return false;
        };
        let words = Coded {
            number: *number,
            count: *count,
            word: *word,
        };
        let Some(next) = place(history, notes, stage, *thread, words) else {
            return false;
        };
        stage = next;
        rest = after;
    }
    rest.is_empty() && stage.ended && reaches(&history.done, 0, &stage.progress)
}
