// What was compared, counted.
use crate::came::{Answered, Came};
use crate::list::List;
use std::{fmt, io};

// How many answers a list has, and with how many of them the port agrees.
#[derive(Clone, Copy, Default)]
struct Answers {
    agreed: u64,
    asked: u64,
}

impl Answers {
    fn count(&mut self, agrees: bool) {
        count_one(&mut self.asked);
        if agrees {
            count_one(&mut self.agreed);
        }
    }
}

impl fmt::Display for Answers {
    fn fmt<W: fmt::Write>(&self, f: &mut fmt::Formatter<W>) -> fmt::Result {
        write!(f, "{} of {} answers agree", self.agreed, self.asked)
    }
}

// The answers of a group, and how many there are to each call.
#[derive(Clone, Copy, Default)]
struct Group {
    calls: [u64; 3],
    answers: Answers,
}

impl Group {
    fn print(&self, rt: &impl Print, name: &str, calls: [&str; 3]) -> io::Result<()> {
        let [first, second, third] = calls;
        let [a, b, c] = self.calls;
        print!(rt; "{name}: {a} {first}, ")?;
        print!(rt; "{b} {second}, ")?;
        println!(rt; "{c} {third}: {}", self.answers)
    }
}

#[derive(Clone, Copy, Default)]
pub struct Tally {
    groups: [Group; 3],
    answers: Answers,
    lines: u64,
    starts: u64,
    unreadable: u64,
    wrong: u64,
}

// One more, but for a count that no list reaches.
fn count_one(count: &mut u64) {
    *count = count.saturating_add(1);
}

impl Tally {
    // Lines that are named because they differ or are unreadable, at most.
    const NAMED: u64 = 10;

    // One line more, which is named if it is one of the first that are wrong.
    pub fn count(&mut self, rt: &impl Print, came: Option<Came>) -> io::Result<()> {
        count_one(&mut self.lines);
        match came {
            Some(Came::Started) => count_one(&mut self.starts),
            Some(Came::Fed) => (),
            Some(Came::Answered(answered)) => {
                self.count_answer(answered);
                if !answered.agrees {
                    return self.name_line(rt, "differs");
                }
            }
            None => {
                count_one(&mut self.unreadable);
                return self.name_line(rt, "unreadable");
            }
        }
        Ok(())
    }

    fn count_answer(&mut self, answered: Answered) {
        self.answers.count(answered.agrees);
        if let Some(group) = self.groups.get_mut(answered.group) {
            group.answers.count(answered.agrees);
            if let Some(call) = group.calls.get_mut(answered.call) {
                count_one(call);
            }
        }
    }

    fn name_line(&mut self, rt: &impl Print, fault: &str) -> io::Result<()> {
        count_one(&mut self.wrong);
        if self.wrong <= Self::NAMED {
            println!(rt; "line {}: {fault}", self.lines)?;
        }
        Ok(())
    }

    // A line for each group, and one for the list.
    pub fn print(&self, rt: &impl Print, list: List) -> io::Result<()> {
        for (name, group) in list.groups().iter().zip(&self.groups) {
            group.print(rt, name, list.calls())?;
        }
        print!(rt; "{} lines: ", self.lines)?;
        if let Some(started) = list.starts() {
            print!(rt; "{} {started}, ", self.starts)?;
        }
        println!(rt; "{}, {} unreadable", self.answers, self.unreadable)
    }
}
