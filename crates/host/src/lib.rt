// The host call: a file judged, and the answer laid into lent bytes.
#![tactic(auto)]

ghost use Rattle.std.specs.Prelude.{◌≡◌};
ghost use Rattle.host.specs.Call.{call_number, call_answer};

use crate::bytes::{ANSWER, lay};
use crate::report::reported;
use corpus::{linearizability, sequential_consistency};

mod bytes;
mod report;

// Judges the file by model 0, sequential, or 1, linearizable. The first bytes of `answer` become the answer, and
// the others keep what they hold; nothing is written where the number is not 0. Model and number are what C hands
// in and out.
pub fn kilteshva_judge(file: &[u8], model: u32, budget: u64, answer: &mut [u8]) -> u32
    ensures number { result ≡ call_number model answer.old }
    ensures bytes { answer.new ≡ call_answer file.now model budget answer.old }
{
    if answer.len() < ANSWER {
        return 10;
    }
    if 1 < model {
        return 11;
    }
    let report = if model == 0 {
        reported(sequential_consistency::load(file), budget)
    } else {
        reported(linearizability::load(file), budget)
    };
    lay(answer, report);
    0
}
