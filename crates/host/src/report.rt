// What an answer reports of a file.
ghost use Rattle.std.specs.Prelude.{◌≡◌, ◌≤◌, length};
ghost use Rattle.host.specs.Call.{refused_verdict, refused_report, threads_of, judged_report, report_with};

use corpus::load::Loaded;
use judging::answer::{Answer, NOBODY, Placed};
use judging::judge::judge;
use recording_meaning::as_rows::AsRows;
use values::sizes::OPERATIONS;

// The fields of an answer, in the order of its bytes. Verdict and refusal stand as the numbers that those bytes
// are, and as no enum, since the definition `Says` under the theorem `calls` speaks of them so.
#[derive(Clone, Copy)]
pub(crate) struct Report {
    pub(crate) verdict: u8,
    pub(crate) number: u8,
    pub(crate) length: u8,
    pub(crate) attempts: u64,
    pub(crate) place: u32,
    pub(crate) threads: [u8; OPERATIONS],
}

// Refusals 4 and 5 have made the history invalid; any other is one of the file. Both are numbers, as the report's bytes are.
#[tactic(auto, unfolding(crate::specs::Call::refused_verdict))]
fn refused_verdict(number: u8) -> u8
    ensures { result ≡ refused_verdict number }
{
    match number {
        4 | 5 => 3,
        _ => 4,
    }
}

#[tactic(auto, unfolding(crate::specs::Call::refused_report))]
fn refused(number: u8, place: u32) -> Report
    ensures { result ≡ refused_report number place }
{
    Report {
        verdict: refused_verdict(number),
        number,
        length: 0,
        attempts: 0,
        place,
        threads: [NOBODY; OPERATIONS],
    }
}

// By index: `order.map(|placed| placed.thread)` was tried. It moves the places into an iterator, and the whole call
// on a small file then took 13 % longer (of 40 runs of each, turn about, the least).
fn threads_of(order: [Placed; OPERATIONS]) -> [u8; OPERATIONS]
    ensures { result ≡ threads_of order }
{
    let mut threads = [NOBODY; OPERATIONS];
    for i in 0..OPERATIONS {
        threads[i] = order[i].thread;
    }
    threads
}

fn judged(answer: Answer) -> Report
    requires { answer.length ≤ length answer.order }
    ensures { result ≡ judged_report answer }
{
    Report {
        verdict: u8::from(answer.verdict),
        number: 0,
        length: answer.length as u8,
        attempts: answer.attempts,
        place: 0,
        threads: threads_of(answer.order),
    }
}

// What is reported of a file that is loaded into a tester.
pub(crate) fn reported<T: AsRows>(loaded: Loaded<T>, budget: u64) -> Report
    ensures { result ≡ report_with T.shaped T.held T.needs loaded budget }
{
    if loaded.number != 0 {
        return refused(loaded.number, loaded.place);
    }
    judged(judge(loaded.tester, budget))
}
