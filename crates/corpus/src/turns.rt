// What the next event of a file comes to, at a tester that is in shape and valid; `flying` says where each thread
// has its operation in flight.
ghost use Rattle.std.specs.Prelude.{◌≡◌, ◌≤◌, length, drop};
ghost use Rattle.format.specs.Format.{event};
ghost use Rattle.corpus.specs.LoaderTurns.{unreadable, turn_of};

use families::Kind;
use families::event::Event;
use format::events::read_event;
use numbers::refusal::Refusal;
use stepping::refusal::valid_after;
use stepping::step::{comes_to, place_for};
use values::sizes::THREADS;

// An event that is taken, with the place of its operation, and so many bytes are behind it.
#[derive(Clone, Copy)]
pub struct Taken {
    pub event: Event,
    pub place: usize,
    pub used: usize,
}

// Loading stops, with the number of the refusal and whether the history is still valid. A file and a record have
// refusals of their own, and the number is what both have.
#[derive(Clone, Copy)]
pub struct Stopped {
    pub number: u8,
    pub valid: bool,
}

// An event that can't be read leaves the history as it is.
impl From<Refusal> for Stopped {
    ghost from_gives = { λ why s. s ≡ unreadable why };

    fn from(why: Refusal) -> Stopped {
        Stopped {
            number: u8::from(why),
            valid: true,
        }
    }
}

// The event at a place; what follows it is handed on as the rest of the file. Kind, marks and count stay apart, as in
// stepping's comes_to.
pub(crate) fn turn_at(
    file: &[u8],
    at: usize,
    kind: Kind,
    flying: &[Option<usize>; THREADS],
    count: usize,
) -> Result<Taken, Stopped>
    requires { at ≤ length file.now }
    ensures { result ≡ turn_of flying.now kind count (event kind (drop at file.now)) }
{
    let read = read_event(&file[at..], kind)?;
    let event = read.value;
    let recorded = comes_to(event, true, true, kind, flying, count);
    match recorded {
        Ok(()) => Ok(Taken {
            event,
            place: place_for(event, flying, count),
            used: read.next,
        }),
        Err(reason) => Err(Stopped {
            number: u8::from(reason),
            valid: valid_after(true, recorded),
        }),
    }
}
