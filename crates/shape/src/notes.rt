// The notes beside a history: of each operation, what had completed on the other threads when it was invoked.
ghost use Rattle.std.specs.Prelude.{◌≡◌, ◌<◌};
ghost use Rattle.values.specs.Sizes.{capacity};
ghost use Rattle.stepping.specs.Shape.{notable, notes_fit};
ghost use Rattle.shape.specs.Notes.{notes_in, noted_at};

use stepping::histories::History;
use values::sizes::{OPERATIONS, THREADS};

// A note for each operation and thread.
pub const NOTES: usize = OPERATIONS * THREADS;

// How many completed operations of thread u an operation of thread `own` can note, and does when it is invoked.
#[tactic(auto, unfolding(stepping::specs::Shape::notable))]
fn notable_of(done: u8, own: u8, u: u8) -> u8
    ensures { result ≡ notable done own u }
{
    if u == own { 0 } else { done }
}

// The notes of an operation at a place: none on its own thread, and none on what has not completed.
#[tactic(auto, unfolding(stepping::specs::Shape::notes_fit, stepping::specs::Shape::all_below))]
fn notes_fit(notes: &[u8; NOTES], done: &[u8; THREADS], at: usize, own: u8) -> bool
    requires { at < capacity }
    ensures { result ≡ notes_fit done.now notes.now at own }
{
    for u in 0..THREADS {
        if notable_of(done[u], own, u as u8) < notes[at * THREADS + u] {
            return false;
        }
    }
    true
}

// Whether the notes beside a history are in shape.
#[tactic(auto, unfolding(crate::specs::Notes::notes_in))]
pub fn noted(history: &History, notes: &[u8; NOTES]) -> bool
    ensures { result ≡ notes_in history.now notes.now }
{
    if OPERATIONS < history.count {
        return false;
    }
    for (i, o) in history.ops[..history.count].iter().enumerate() {
        if !notes_fit(notes, &history.done, i, o.thread) {
            return false;
        }
    }
    true
}

// Writes the notes of an operation that is invoked now and gets that place; there are none for a place that no
// operation has. Notes, done, place and thread are no struct: here the notes are lent to write, in notes_fit to read, and
// only one of the two testers has any.
#[tactic(auto, unfolding(crate::specs::Notes::noted_at, crate::specs::Notes::notes_with))]
pub fn note(notes: &mut [u8; NOTES], done: &[u8; THREADS], at: usize, own: u8)
    ensures { notes.new ≡ noted_at done.now own at notes.old }
{
    if OPERATIONS <= at {
        return;
    }
    for u in 0..THREADS {
        notes[at * THREADS + u] = notable_of(done[u], own, u as u8);
    }
}
