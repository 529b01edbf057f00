// The lists of events, histories and orders, fed to both testers.
use crate::came::{Answered, Came, Compare};
use crate::{proposals, verdicts};
use families::family::Family;
use lists::events::{Event, event_at};
use lists::fields::{from, number_at};
use lists::starts::object_of;
use testers::{Answer, Testers};

// What a list asks: what each event is answered, or for verdicts on the events so far, or whether proposed orders of
// them are legal.
#[derive(Clone, Copy, PartialEq, Eq)]
pub enum Asks {
    Events,
    Verdicts,
    Orders,
}

// Whether both testers gave that number, and then hold so many operations.
fn both_are(a: Answer, b: Answer, number: u8, len: Option<usize>) -> bool {
    (a.number, Some(a.len)) == (number, len) && (b.number, Some(b.len)) == (number, len)
}

// Both testers, and whether the list has said Err of an event since they were made. It shares its name with what a line of
// bare objects starts, and no more: another thing is started, and other lines ask about it.
#[derive(Clone, Copy)]
struct Started {
    family: Family,
    testers: Testers,
    has_refused: bool,
}

impl Started {
    // F n v1 … vn: testers of an object that they refuse are as good as none.
    fn at(fields: &[i64]) -> Option<Self> {
        let family = number_at(fields, 0)?;
        let object = object_of(Some(family), from(fields, 1)).ok()?;
        let answers = Testers::new(object);
        if !both_are(answers.linearizability, answers.sequential, 0, Some(0)) {
            return None;
        }
        Some(Started {
            family,
            testers: answers.testers,
            has_refused: false,
        })
    }

    // The number of an event of which the Rust said Err: 1 after an earlier one; else 5 for a return, which then had
    // nothing in flight, and 4 for an invoke, whose thread then was busy. By number, which the testers' answers have too.
    fn refusal_of(&self, event: Event) -> u8 {
        match event {
            _ if self.has_refused => 1,
            Event::Return { .. } => 5,
            Event::Invoke { .. } | Event::Both { .. } => 4,
        }
    }

    // An event and Y L to the end of the line: Y is 1 where the Rust said Ok, and L how many operations there are then.
    // The call, and whether both testers answered so.
    fn hear(&mut self, event: Event, a: Answer, b: Answer, line: &[i64]) -> Option<(usize, bool)> {
        let (call, said) = match event {
            Event::Invoke { .. } => (0, from(line, 4)),
            Event::Return { .. } => (1, from(line, 5)),
            Event::Both { .. } => (2, from(line, 7)),
        };
        let number = match said {
            [0, _] => self.refusal_of(event),
            [1, _] => 0,
            _ => return None,
        };
        if number != 0 {
            self.has_refused = true;
        }
        Some((call, both_are(a, b, number, number_at(said, 1))))
    }
}

#[derive(Clone, Copy)]
pub struct Sequences {
    asks: Asks,
    started: Option<Started>,
}

impl Sequences {
    pub fn new(asks: Asks) -> Self {
        Sequences {
            asks,
            started: None,
        }
    }

    // New testers. Apart, and never put in line: what is worked with here is large, and would be cleared at each line.
    #[inline(never)]
    fn start(&mut self, fields: &[i64]) -> Option<Came> {
        self.started = Started::at(fields);
        self.started.is_some().then_some(Came::Started)
    }

    // New testers, or an event or a question to those that there are.
    fn read(&mut self, line: &[i64]) -> Option<Came> {
        if let [0, fields @ ..] = line {
            return self.start(fields);
        }
        let asks = self.asks;
        let sequence = self.started.as_mut()?;
        let (call, agrees) = match (asks, line) {
            (Asks::Verdicts, [3, fields @ ..]) => {
                let (model, agrees) = verdicts::compared(
                    &sequence.testers,
                    sequence.family,
                    fields,
                )?;
                (model as usize, agrees)
            }
            (Asks::Orders, [3, fields @ ..]) => {
                let (model, agrees) = proposals::compared(&sequence.testers, fields)?;
                (model as usize, agrees)
            }
            _ => {
                // Fed here and nowhere else, and the testers are handed on by no Option: they are large.
                let event = event_at(Some(sequence.family), line)?;
                let answers = event.feed(sequence.testers);
                sequence.testers = answers.testers;
                if asks != Asks::Events {
                    return Some(Came::Fed);
                }
                sequence.hear(event, answers.linearizability, answers.sequential, line)?
            }
        };
        Some(Came::Answered(Answered {
            group: u32::from(sequence.family) as usize,
            call,
            agrees,
        }))
    }
}

impl Compare for Sequences {
    // After a line that can't be read there are no testers, so that nothing can be asked up to the next start.
    fn compare(&mut self, line: &[i64]) -> Option<Came> {
        let came = self.read(line);
        if came.is_none() {
            self.started = None;
        }
        came
    }
}
