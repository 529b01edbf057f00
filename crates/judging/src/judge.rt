// The judge, for any tester.
ghost use Rattle.std.specs.Prelude.{◌≡◌};
ghost use Rattle.judging.specs.Answers.{judge_with};

use crate::answer::{Answer, Verdict, without_order};
use crate::search::search;
use recording_meaning::as_rows::AsRows;

// Whether some order explains the history of the tester, within a budget of attempts: whether it is linearizable for a
// tester of linearizability, and sequentially consistent for one of sequential consistency, whose notes let no operation wait
// for another thread's.
pub fn judge<T: AsRows>(tester: T, budget: u64) -> Answer
    ensures { result ≡ judge_with T.shaped T.held T.needs tester budget }
{
    let history = tester.history();
    if tester.is_in_shape() && history.valid {
        return search(history, tester.notes(), budget);
    }
    without_order(Verdict::Invalid, 0)
}
