// Operations and returns in words.
use families::family::Family;
use families::{Op, Ret};
use objects::register::{RegisterOp, RegisterRet};
use objects::vec::{VecOp, VecRet};
use objects::write_once_register::{WORegisterOp, WORegisterRet};
use std::fmt;

// An operation on an object of that family. Without a family it has no name.
#[derive(Clone, Copy)]
pub struct Operation {
    pub family: Option<Family>,
    pub op: Op,
}

impl fmt::Display for Operation {
    fn fmt<W: fmt::Write>(&self, f: &mut fmt::Formatter<W>) -> fmt::Result {
        if self.family.is_none() {
            return Ok(());
        }
        match self.op {
            Op::Register(RegisterOp::Write(v)) | Op::WORegister(WORegisterOp::Write(v)) => {
                write!(f, "Write({v})")
            }
            Op::Register(RegisterOp::Read) | Op::WORegister(WORegisterOp::Read) => {
                write!(f, "Read")
            }
            Op::Vec(VecOp::Push(v)) => write!(f, "Push({v})"),
            Op::Vec(VecOp::Pop) => write!(f, "Pop"),
            Op::Vec(VecOp::Len) => write!(f, "Len"),
        }
    }
}

// A return likewise.
#[derive(Clone, Copy)]
pub struct Return {
    pub family: Option<Family>,
    pub ret: Ret,
}

// A value, or nothing.
#[derive(Clone, Copy)]
struct Value(Option<i32>);

impl fmt::Display for Value {
    fn fmt<W: fmt::Write>(&self, f: &mut fmt::Formatter<W>) -> fmt::Result {
        match self.0 {
            None => write!(f, "nothing"),
            Some(v) => write!(f, "{v}"),
        }
    }
}

impl fmt::Display for Return {
    fn fmt<W: fmt::Write>(&self, f: &mut fmt::Formatter<W>) -> fmt::Result {
        if self.family.is_none() {
            return Ok(());
        }
        match self.ret {
            Ret::Register(RegisterRet::WriteOk) | Ret::WORegister(WORegisterRet::WriteOk) => {
                write!(f, "WriteOk")
            }
            Ret::Register(RegisterRet::ReadOk(v)) => write!(f, "ReadOk({v})"),
            Ret::WORegister(WORegisterRet::WriteFail) => write!(f, "WriteFail"),
            Ret::WORegister(WORegisterRet::ReadOk(m)) => write!(f, "ReadOk({})", Value(m)),
            Ret::Vec(VecRet::PushOk) => write!(f, "PushOk"),
            Ret::Vec(VecRet::PopOk(m)) => write!(f, "PopOk({})", Value(m)),
            Ret::Vec(VecRet::LenOk(n)) => write!(f, "LenOk({n})"),
        }
    }
}
