// A register: Write stores, Read answers what is stored.
ghost use Rattle.std.specs.Prelude.{◌≡◌};
ghost use Rattle.values.specs.Coded.{same_coded};
ghost use Rattle.objects.specs.Register.{register_answer, register_after, register_op_form, register_op_from, register_ret_coded, register_ret_form, register_ret_from};

use values::coded::{Coded, Form, Told};
use values::value::{signed_of, zigzag};

#[derive(Clone, Copy, PartialEq, Eq)]
pub enum RegisterOp {
    Write(i32),
    Read,
}

#[derive(Clone, Copy, PartialEq, Eq)]
pub enum RegisterRet {
    WriteOk,
    ReadOk(i32),
}

#[tactic(auto, unfolding(crate::specs::Register::register_answer))]
pub fn answer(value: i32, op: RegisterOp) -> RegisterRet
    ensures { result ≡ register_answer value op }
{
    match op {
        RegisterOp::Write(_) => RegisterRet::WriteOk,
        RegisterOp::Read => RegisterRet::ReadOk(value),
    }
}

#[tactic(auto, unfolding(crate::specs::Register::register_after))]
pub fn after(value: i32, op: RegisterOp) -> i32
    ensures { result ≡ register_after value op }
{
    match op {
        RegisterOp::Write(v) => v,
        RegisterOp::Read => value,
    }
}

// Whether `ret` is the return that the operation has here.
pub fn right(value: i32, op: RegisterOp, ret: RegisterRet) -> bool
    ensures { result ≡ same_coded (register_ret_coded (register_answer value op)) (register_ret_coded ret) }
{
    answer(value, op) == ret
}

impl Told for RegisterOp {
    ghost form_of = { register_op_form };

    ghost told_of = { register_op_from };

    #[tactic(auto, unfolding(crate::specs::Register::register_op_form))]
    fn form(number: u32) -> Form {
        match number {
            0 => Form::Number,
            1 => Form::Bare,
            _ => Form::Unknown,
        }
    }

    #[tactic(auto, unfolding(crate::specs::Register::register_op_from))]
    fn told(coded: Coded) -> RegisterOp {
        match coded.number {
            0 => RegisterOp::Write(signed_of(coded.word)),
            _ => RegisterOp::Read,
        }
    }
}

impl Told for RegisterRet {
    ghost form_of = { register_ret_form };

    ghost told_of = { register_ret_from };

    #[tactic(auto, unfolding(crate::specs::Register::register_ret_form))]
    fn form(number: u32) -> Form {
        match number {
            0 => Form::Bare,
            1 => Form::Number,
            _ => Form::Unknown,
        }
    }

    #[tactic(auto, unfolding(crate::specs::Register::register_ret_from))]
    fn told(coded: Coded) -> RegisterRet {
        match coded.number {
            0 => RegisterRet::WriteOk,
            _ => RegisterRet::ReadOk(signed_of(coded.word)),
        }
    }
}

impl From<RegisterRet> for Coded {
    ghost from_gives = { λ ret coded. coded ≡ register_ret_coded ret };

    #[tactic(auto, unfolding(crate::specs::Register::register_ret_coded))]
    fn from(ret: RegisterRet) -> Coded {
        match ret {
            RegisterRet::WriteOk => Coded::bare(0),
            RegisterRet::ReadOk(v) => Coded::single(1, zigzag(v)),
        }
    }
}
