// The bytes of an answer.
ghost use Rattle.std.specs.Prelude.{◌≡◌, ◌++◌, ◌≤◌, length, drop};
ghost use Rattle.host.specs.Call.{answer_size, head_of, bytes_of};

use crate::report::Report;
use values::sizes::OPERATIONS;

// Verdict, number, length, attempts and place.
const HEAD: usize = 15;

// An answer: these, and the thread numbers.
pub(crate) const ANSWER: usize = HEAD + OPERATIONS;

fn head_of(verdict: u8, number: u8, length: u8, attempts: u64, place: u32) -> [u8; HEAD]
    ensures { result ≡ head_of verdict number length attempts place }
{
    let [a0, a1, a2, a3, a4, a5, a6, a7] = attempts.to_le_bytes();
    let [p0, p1, p2, p3] = place.to_le_bytes();
    [
        verdict, number, length, a0, a1, a2, a3, a4, a5, a6, a7, p0, p1, p2, p3,
    ]
}

// The report's bytes laid over the first ones.
pub(crate) fn lay(answer: &mut [u8], report: Report)
    requires { answer_size ≤ length answer.old }
    ensures { answer.new ≡ bytes_of report ++ drop answer_size answer.old }
{
    let head = head_of(
        report.verdict,
        report.number,
        report.length,
        report.attempts,
        report.place,
    );
    answer[..HEAD].copy_from_slice(&head);
    answer[HEAD..ANSWER].copy_from_slice(&report.threads);
}
