// Reading an event.
ghost use Rattle.std.specs.Prelude.{◌≡◌};
ghost use Rattle.format.specs.Format.{event};
ghost use Rattle.format.specs.Reads.{Reads};
ghost use Rattle.format.specs.ReadAnswers.{event_said, as_event};

use crate::cursor::Cursor;
use families::Kind;
use families::event::Event;
use numbers::Got;
use numbers::refusal::Refusal;

impl Cursor<'_> {
    // An event, of the family of `kind`; it is read whole.
    fn event(&mut self, kind: Kind) -> Result<Event, Refusal>
        ensures { Reads (event_said kind) self.old self.new result }
    {
        let head = self.number()?;
        let thread = head / 2;
        if head % 2 == 0 {
            let op = self.told(kind)?;
            Ok(Event::Invoked { thread, op })
        } else {
            let ret = self.told(kind)?;
            Ok(Event::Returned { thread, ret })
        }
    }
}

// The event that opens the rest of a file, of the family of `kind`.
pub fn read_event(rest: &[u8], kind: Kind) -> Result<Got<Event>, Refusal>
    ensures { result ≡ as_event (event kind rest.now) }
{
    let mut cursor = Cursor::new(rest, 0);
    let value = cursor.event(kind)?;
    Ok(Got {
        value,
        next: cursor.at,
    })
}
