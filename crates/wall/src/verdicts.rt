// What the judges answer, in words.
use crate::telling::Return;
use families::family::Family;
use judging::answer::{Answer, Verdict};
use judging::judge::judge;
use std::{fmt, io};
use testers::Testers;

// The verdict is another crate's, and so is Display.
pub fn name_of(verdict: Verdict) -> &'static str {
    match verdict {
        Verdict::Order => "Order",
        Verdict::NoOrder => "No order",
        Verdict::Undecided => "Undecided",
        Verdict::Invalid => "Invalid",
    }
}

// What a judge answers of an object of that family: the verdict, each place of the order with its thread and the return
// there, and the attempts.
#[derive(Clone, Copy)]
struct Told {
    family: Option<Family>,
    answer: Answer,
}

impl fmt::Display for Told {
    fn fmt<W: fmt::Write>(&self, f: &mut fmt::Formatter<W>) -> fmt::Result {
        let family = self.family;
        let length = self.answer.length;
        write!(f, "{}", name_of(self.answer.verdict))?;
        if let (Verdict::Order, 0) = (self.answer.verdict, length) {
            write!(f, ", empty")?;
        }
        for (place, placed) in self.answer.order.iter().take(length).enumerate() {
            if place > 0 {
                write!(f, ",")?;
            }
            let ret = placed.ret;
            write!(f, " {} {}", placed.thread, Return { family, ret })?;
        }
        write!(f, "; attempts {}", self.answer.attempts)
    }
}

// One line for both models. Each judge is asked when what stands before its answer is written, so that a search that goes
// on and on keeps nothing back, and one is not begun where nothing more can be written.
pub fn tell_verdicts(
    rt: &impl Print,
    testers: Testers,
    family: Option<Family>,
    budget: u64,
) -> io::Result<()> {
    print!(rt; "linearizable: ")?;
    let answer = judge(testers.linearizability, budget);
    print!(rt; "{}", Told { family, answer })?;
    print!(rt; " | sequential: ")?;
    let answer = judge(testers.sequential, budget);
    println!(rt; "{}", Told { family, answer })
}
