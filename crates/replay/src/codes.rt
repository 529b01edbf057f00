// Steps of a line, and returns compared with those of a line.
use families::family::Family;
use families::{Op, Ret};
use lists::codes::{op_at, ret_at, ret_coded_at};
use lists::fields::from;
use values::coded::Coded;

// OP V RET RN RV: an operation and its return.
pub fn step_at(family: Family, fields: &[i64]) -> Option<(Op, Ret)> {
    let op = op_at(Some(family), fields)?;
    let ret = ret_at(Some(family), from(fields, 2))?;
    Some((op, ret))
}

// Whether a return is the one that RET RN RV say.
pub fn is_said(ret: Ret, family: Family, fields: &[i64]) -> bool {
    ret_coded_at(Some(family), fields) == Some(Coded::from(ret))
}
