// The families: a register, a write-once register and a stack. All that is particular to one of them stands in
// this crate, in a file of its own; the crates above see an object, operations and returns.
#![tactic(auto)]

pub mod codes;
pub mod event;
pub mod family;
pub mod placing;
pub mod refusal;

ghost use Rattle.std.specs.Prelude.{◌≡◌, pos, None};
ghost use Rattle.families.specs.Objects.{zeros, new_register, new_once, new_stack, stand_in, no_op, no_ret};

use objects::register::{RegisterOp, RegisterRet};
use objects::vec::{VecOp, VecRet};
use objects::write_once_register::{WORegisterOp, WORegisterRet};
use values::sizes::ROOM;

// An operation names its family and, inside it, its own operation.
#[derive(Clone, Copy, PartialEq, Eq)]
pub enum Op {
    Register(RegisterOp),
    WORegister(WORegisterOp),
    Vec(VecOp),
}

// A return likewise.
#[derive(Clone, Copy, PartialEq, Eq)]
pub enum Ret {
    Register(RegisterRet),
    WORegister(WORegisterRet),
    Vec(VecRet),
}

// What stands in a place of an array that no operation has taken: with no heap, a rule of the project, an array is
// full from the start.
pub fn no_op() -> Op
    ensures { result ≡ no_op }
{
    Op::Register(RegisterOp::Write(0))
}

// And in one that no return has.
pub fn no_ret() -> Ret
    ensures { result ≡ no_ret }
{
    Ret::Register(RegisterRet::WriteOk)
}

// What an object is and, but for a stack's items, what it holds: a register its value, a write-once
// register nothing or a value, a stack its depth.
#[derive(Clone, Copy, PartialEq, Eq)]
pub enum Kind {
    Register(i32),
    WORegister(Option<i32>),
    Vec(u32),
}

// An object; the items are a stack's storage, bottom first: an array of all the room, since no heap is a rule of the
// project, and no ArrayVec, since a record may say a depth above the room, which check_shape refuses, and an object is Copy.
#[derive(Clone, Copy, PartialEq, Eq)]
pub struct Object {
    pub kind: Kind,
    pub items: [i32; ROOM],
}

impl Object {
    // A register that holds a value; by default 0.
    #[tactic(auto, unfolding(crate::specs::Objects::new_register))]
    pub fn register(value: i32) -> Self
        ensures { result ≡ new_register value }
    {
        Self {
            kind: Kind::Register(value),
            items: [0; ROOM],
        }
    }

    // A write-once register; by default it holds nothing.
    #[tactic(auto, unfolding(crate::specs::Objects::new_once))]
    pub fn write_once_register(stored: Option<i32>) -> Self
        ensures { result ≡ new_once stored }
    {
        Self {
            kind: Kind::WORegister(stored),
            items: [0; ROOM],
        }
    }

    // A stack of the first `depth` items, bottom first.
    #[tactic(auto, unfolding(crate::specs::Objects::new_stack))]
    pub fn stack(items: [i32; ROOM], depth: u32) -> Self
        ensures { result ≡ new_stack items depth }
    {
        Self {
            kind: Kind::Vec(depth),
            items,
        }
    }

    pub fn default_register() -> Self
        ensures { result ≡ new_register (pos 0) }
    {
        Object::register(0)
    }

    pub fn default_write_once_register() -> Self
        ensures { result ≡ new_once None }
    {
        Object::write_once_register(None)
    }

    pub fn default_stack() -> Self
        ensures { result ≡ new_stack zeros 0 }
    {
        Object::stack([0; ROOM], 0)
    }

    // The default of the family of `kind`, which stands in for an object that a tester can't start with.
    #[tactic(auto, unfolding(crate::specs::Objects::stand_in))]
    pub fn stand_in(kind: Kind) -> Self
        ensures { result ≡ stand_in kind }
    {
        match kind {
            Kind::Register(_) => Object::default_register(),
            Kind::WORegister(_) => Object::default_write_once_register(),
            Kind::Vec(_) => Object::default_stack(),
        }
    }
}
