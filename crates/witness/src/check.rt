// The checker, for any tester.
ghost use Rattle.std.specs.Prelude.{◌≡◌};
ghost use Rattle.witness.specs.Checking.{check_with};

use crate::replay::replay;
use recording_meaning::as_rows::AsRows;

// Whether the tester is in shape and valid and the order is a legal one.
pub fn check<T: AsRows>(tester: T, order: &[u32]) -> bool
    ensures { result ≡ check_with T.shaped T.held T.needs tester order.now }
{
    let history = tester.history();
    tester.is_in_shape() && history.valid && replay(&history, tester.notes(), order)
}
