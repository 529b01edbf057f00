// Operations and returns, told by the families' table of numbers. A family and a line's fields are no struct: the family
// stays, and the fields move on with each call.
ghost use Rattle.std.specs.Prelude.{◌≤◌, IfSome};

use crate::fields::number_at;
use crate::starts::kind_of;
use families::family::{Family, OfFamily};
use families::{Op, Ret};
use values::coded::{Coded, Form};
use values::value::zigzag;

// The one return that carries a natural number and no value: a stack's length. The list has the number, and not the return,
// which is looked up by it.
const LENGTH: u32 = 2;

// OP V: an operation, and its value or 0.
pub fn op_at(family: Option<Family>, fields: &[i64]) -> Option<Op> {
    let kind = kind_of(family);
    let number = number_at(fields, 0)?;
    let value: i32 = number_at(fields, 1)?;
    let takes = match Op::form(kind, number) {
        Form::Number => true,
        Form::Bare => value == 0,
        Form::Unknown | Form::Flagged => false,
    };
    takes.then(|| Op::told(kind, Coded::single(number, zigzag(value))))
}

// RET RN RV: the numbers of a return, the last as a corpus file sends it.
pub fn ret_coded_at(family: Option<Family>, fields: &[i64]) -> Option<Coded>
    ensures { IfSome result (λ coded. coded.count ≤ 1) }
{
    let number = number_at(fields, 0)?;
    let count = number_at(fields, 1)?;
    let word = if family == Some(Family::Vec) && number == LENGTH {
        number_at(fields, 2)?
    } else {
        zigzag(number_at(fields, 2)?)
    };
    let carries = match Ret::form(kind_of(family), number) {
        Form::Unknown => false,
        Form::Bare => count == 0 && word == 0,
        Form::Number => count == 1,
        Form::Flagged => count == 1 || (count == 0 && word == 0),
    };
    let coded = Coded {
        number,
        count,
        word,
    };
    carries.then_some(coded)
}

// RET RN RV: a return.
pub fn ret_at(family: Option<Family>, fields: &[i64]) -> Option<Ret> {
    let coded = ret_coded_at(family, fields)?;
    Some(Ret::told(kind_of(family), coded))
}
