// A trace as it goes on: what a line of numbers does. data/traces.txt says what each stands for.
use crate::bare::{tell_bare, tell_new};
use crate::files::{tell_judged, tell_loaded};
use crate::records::tell_record;
use crate::telling::{Operation, Return};
use crate::verdicts::tell_verdicts;
use families::Object;
use families::family::Family;
use lists::events::{Event, event_at};
use lists::fields::{from, number_at, wide};
use lists::starts::object_of;
use std::io;
use testers::{Answers, Testers};

// How events are told.
#[derive(Clone, Copy, PartialEq, Eq)]
enum Telling {
    Silent,
    InWords,
    // With what both testers answer.
    Answered,
}

// Both testers, and the family of their object, if it is one.
#[derive(Clone, Copy)]
pub struct Trace {
    testers: Testers,
    family: Option<Family>,
    telling: Telling,
}

// HIGH LOW, the largest number of 32 bits for one that is none.
fn budget_at(fields: &[i64]) -> u64 {
    let high: u32 = number_at(fields, 0).unwrap_or(u32::MAX);
    let low: u32 = number_at(fields, 1).unwrap_or(u32::MAX);
    wide(u64::from(high), u64::from(low))
}

impl Trace {
    pub fn new() -> Self {
        let answers = Testers::new(Object::default_register());
        Trace {
            testers: answers.testers,
            family: Some(Family::Register),
            telling: Telling::Silent,
        }
    }

    // A line, by the number that begins it.
    pub fn run(&mut self, rt: &impl Print, line: &[i64]) -> io::Result<()> {
        match line {
            [0, fields @ ..] => self.start(rt, fields),
            [4, fields @ ..] => {
                self.telling = match number_at(fields, 0) {
                    Some(0u8) => Telling::Silent,
                    Some(2) => Telling::Answered,
                    _ => Telling::InWords,
                };
                Ok(())
            }
            [5, fields @ ..] => tell_verdicts(rt, self.testers, self.family, budget_at(fields)),
            [6, bytes @ ..] => tell_loaded(rt, bytes),
            [7, fields @ ..] => tell_judged(rt, budget_at(fields), from(fields, 2)),
            [8, fields @ ..] => tell_record(rt, fields),
            [9, fields @ ..] => tell_bare(rt, fields),
            [10, fields @ ..] => tell_new(rt, fields),
            _ => match event_at(self.family, line) {
                Some(event) => self.feed(rt, event),
                None => println!(rt; "unreadable"),
            },
        }
    }

    // F n v1 … vn. A line that can't be read starts all the same, from what comes near it.
    fn start(&mut self, rt: &impl Print, fields: &[i64]) -> io::Result<()> {
        self.family = number_at(fields, 0);
        let (object, is_readable) = match object_of(self.family, from(fields, 1)) {
            Ok(object) => (object, true),
            Err(object) => (object, false),
        };
        let answers = Testers::new(object);
        self.testers = answers.testers;
        if is_readable {
            Ok(())
        } else {
            println!(rt; "unreadable")
        }
    }

    fn feed(&mut self, rt: &impl Print, event: Event) -> io::Result<()> {
        let answers = event.feed(self.testers);
        self.testers = answers.testers;
        match self.telling {
            Telling::Silent => Ok(()),
            Telling::InWords => {
                self.tell(rt, event)?;
                print!(rt; "; ")
            }
            Telling::Answered => {
                self.tell(rt, event)?;
                tell_answers(rt, answers)
            }
        }
    }

    fn tell(&self, rt: &impl Print, event: Event) -> io::Result<()> {
        let family = self.family;
        match event {
            Event::Invoke { thread, op } => {
                print!(rt; "T{thread} invokes {}", Operation { family, op })
            }
            Event::Return { thread, ret } => {
                print!(rt; "T{thread} returns {}", Return { family, ret })
            }
            Event::Both { thread, op, ret } => {
                let op = Operation { family, op };
                let ret = Return { family, ret };
                print!(rt; "T{thread} invokes {op} and returns {ret}")
            }
        }
    }
}

// What the testers answered to an event.
fn tell_answers(rt: &impl Print, answers: Answers) -> io::Result<()> {
    let a = answers.linearizability;
    let b = answers.sequential;
    let apart = if a == b {
        ""
    } else {
        " (not so for sequential consistency)"
    };
    print!(rt; ": {}, len {}{apart}; ", a.number, a.len)
}
