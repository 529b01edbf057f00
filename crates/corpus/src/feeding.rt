// The events of a file, recorded in place: the tester is the loader's own, so it is in shape, and an event changes
// no more of it than its operation, its notes and its thread's count.
ghost use Rattle.std.specs.Prelude.{◌≡◌, ◌≤◌, length, drop};
ghost use Rattle.recording_meaning.specs.Models.{linearizability_model};
ghost use Rattle.format.specs.Format.{longest};
ghost use Rattle.corpus.specs.Load.{load_from};
ghost use Rattle.corpus.specs.LoadAnswers.{as_linearizability};
ghost use Rattle.corpus.specs.LoaderTurns.{Fresh, noted_by};

use crate::load::Loaded;
use crate::turns::turn_at;
use families::Kind;
use recording::linearizability::LinearizabilityTester;
use shape::notes::{NOTES, note};
use stepping::step::{change_of, thread_of};
use values::sizes::THREADS;

// Writes the notes of an operation that comes into flight; a return, which leaves no mark, keeps what stands.
#[tactic(auto, unfolding(crate::specs::LoaderTurns::noted_by))]
fn note_change(
    notes: &mut [u8; NOTES],
    done: &[u8; THREADS],
    at: usize,
    own: u8,
    mark: Option<usize>,
)
    ensures { notes.new ≡ noted_by mark done.now own at notes.old }
{
    if mark.is_some() {
        note(notes, done, at, own);
    }
}

// The events from a place to the end, recorded by a fresh tester.
pub(crate) fn feed(
    mut tester: LinearizabilityTester,
    file: &[u8],
    first: usize,
    kind: Kind,
) -> Loaded<LinearizabilityTester>
    requires { Fresh kind tester × ((first ≤ length file.now) × (length file.now ≤ longest)) }
    ensures { result ≡ as_linearizability (load_from linearizability_model (length file.now) kind (drop first file.now) first tester) }
{
    let mut flying = [None; THREADS];
    let mut at = first;
    // An event takes as many bytes as it says, so that no range and no iterator has these places.
    while at < file.len() {
        let history = &mut tester.history;
        let count = history.count;
        match turn_at(file, at, kind, &flying, count) {
            Err(stopped) => {
                history.valid = stopped.valid;
                return Loaded {
                    number: stopped.number,
                    place: at as u32,
                    tester,
                };
            }
            Ok(taken) => {
                let place = taken.place;
                let t = thread_of(taken.event) as usize;
                let done = history.done;
                let change = change_of(taken.event, history.ops[place], place, count, done[t]);
                history.ops[place] = change.operation;
                history.count = change.count;
                history.done[t] = change.done;
                note_change(
                    &mut tester.notes,
                    &done,
                    place,
                    change.operation.thread,
                    change.mark,
                );
                flying[t] = change.mark;
                at += taken.used;
            }
        }
    }
    Loaded {
        number: 0,
        place: 0,
        tester,
    }
}
