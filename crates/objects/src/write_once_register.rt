// A write-once register: the first Write stores, and so does none after it; a Write of the value that
// is stored succeeds too. Its operations are written as a register's are, but are a type of their own, as in the Rust that
// `object_same` compares them with: an operation tells its family.
ghost use Rattle.std.specs.Prelude.{◌≡◌};
ghost use Rattle.values.specs.Coded.{same_coded};
ghost use Rattle.objects.specs.WriteOnce.{writes, once_answer, once_after, once_op_form, once_op_from, once_ret_coded, once_ret_form, once_ret_from};

use values::coded::{Coded, Form, Told};
use values::value::signed_of;

#[derive(Clone, Copy, PartialEq, Eq)]
pub enum WORegisterOp {
    Write(i32),
    Read,
}

#[derive(Clone, Copy, PartialEq, Eq)]
pub enum WORegisterRet {
    WriteOk,
    WriteFail,
    ReadOk(Option<i32>),
}

// Whether a Write of `v` succeeds.
#[tactic(auto, unfolding(crate::specs::WriteOnce::writes))]
fn writes_ok(stored: Option<i32>, v: i32) -> bool
    ensures { result ≡ writes stored v }
{
    match stored {
        None => true,
        Some(x) => x == v,
    }
}

#[tactic(auto, unfolding(crate::specs::WriteOnce::once_answer, crate::specs::WriteOnce::write_answer))]
pub fn answer(stored: Option<i32>, op: WORegisterOp) -> WORegisterRet
    ensures { result ≡ once_answer stored op }
{
    match op {
        WORegisterOp::Write(v) if writes_ok(stored, v) => WORegisterRet::WriteOk,
        WORegisterOp::Write(_) => WORegisterRet::WriteFail,
        WORegisterOp::Read => WORegisterRet::ReadOk(stored),
    }
}

#[tactic(auto, unfolding(crate::specs::WriteOnce::once_after))]
pub fn after(stored: Option<i32>, op: WORegisterOp) -> Option<i32>
    ensures { result ≡ once_after stored op }
{
    match op {
        WORegisterOp::Write(v) => stored.or(Some(v)),
        WORegisterOp::Read => stored,
    }
}

// Whether `ret` is the return that the operation has here. By operation, as a stack's: searches took 2 % longer than before
// with `answer(stored, op) == ret`.
pub fn right(stored: Option<i32>, op: WORegisterOp, ret: WORegisterRet) -> bool
    ensures { result ≡ same_coded (once_ret_coded (once_answer stored op)) (once_ret_coded ret) }
{
    match op {
        WORegisterOp::Write(_) => answer(stored, op) == ret,
        WORegisterOp::Read => WORegisterRet::ReadOk(stored) == ret,
    }
}

impl Told for WORegisterOp {
    ghost form_of = { once_op_form };

    ghost told_of = { once_op_from };

    #[tactic(auto, unfolding(crate::specs::WriteOnce::once_op_form))]
    fn form(number: u32) -> Form {
        match number {
            0 => Form::Number,
            1 => Form::Bare,
            _ => Form::Unknown,
        }
    }

    #[tactic(auto, unfolding(crate::specs::WriteOnce::once_op_from))]
    fn told(coded: Coded) -> WORegisterOp {
        match coded.number {
            0 => WORegisterOp::Write(signed_of(coded.word)),
            _ => WORegisterOp::Read,
        }
    }
}

impl Told for WORegisterRet {
    ghost form_of = { once_ret_form };

    ghost told_of = { once_ret_from };

    #[tactic(auto, unfolding(crate::specs::WriteOnce::once_ret_form))]
    fn form(number: u32) -> Form {
        match number {
            0 | 1 => Form::Bare,
            2 => Form::Flagged,
            _ => Form::Unknown,
        }
    }

    #[tactic(auto, unfolding(crate::specs::WriteOnce::once_ret_from))]
    fn told(coded: Coded) -> WORegisterRet {
        match coded.number {
            0 => WORegisterRet::WriteOk,
            1 => WORegisterRet::WriteFail,
            _ => WORegisterRet::ReadOk(coded.maybe_value()),
        }
    }
}

impl From<WORegisterRet> for Coded {
    ghost from_gives = { λ ret coded. coded ≡ once_ret_coded ret };

    #[tactic(auto, unfolding(crate::specs::WriteOnce::once_ret_coded))]
    fn from(ret: WORegisterRet) -> Coded {
        match ret {
            WORegisterRet::WriteOk => Coded::bare(0),
            WORegisterRet::WriteFail => Coded::bare(1),
            WORegisterRet::ReadOk(value) => Coded::maybe(2, value),
        }
    }
}
