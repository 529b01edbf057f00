// The families, and what operations and returns have in common: each is of one family, and is told by numbers there.
ghost use Rattle.std.specs.Prelude.{◌≡◌, ℕ, Some, None, MatchResult};
ghost use Rattle.families.specs.Family.{family_of, op_family, ret_family, family_number, family_told};
ghost use Rattle.families.specs.Codes.{op_form, op_from, ret_form, ret_from};
ghost use Rattle.families.specs.Decoded.{op_from_family, ret_from_family};

use crate::{Kind, Op, Ret};
use objects::register::{RegisterOp, RegisterRet};
use objects::vec::{VecOp, VecRet};
use objects::write_once_register::{WORegisterOp, WORegisterRet};
use values::coded::{Coded, Form, Told};

// With the numbers that tell them.
#[derive(Clone, Copy, PartialEq, Eq)]
pub enum Family {
    Register = 0,
    WORegister = 1,
    Vec = 2,
}

// A number that tells no family.
#[derive(Clone, Copy, PartialEq, Eq)]
pub struct UnknownFamily;

impl TryFrom<i64> for Family {
    type Error = UnknownFamily;

    ghost try_from_gives = { λ number r. MatchResult r (λ family. family_told number ≡ Some family) (λ _. family_told number ≡ None) };

    #[tactic(auto, unfolding(crate::specs::Family::family_told, crate::specs::Family::family_at))]
    fn try_from(number: i64) -> Result<Self, UnknownFamily> {
        match number {
            0 => Ok(Family::Register),
            1 => Ok(Family::WORegister),
            2 => Ok(Family::Vec),
            _ => Err(UnknownFamily),
        }
    }
}

// The number of a family.
impl From<Family> for u32 {
    ghost from_gives = { λ family n. n ≡ family_number family };

    #[tactic(auto, unfolding(crate::specs::Family::family_number))]
    fn from(family: Family) -> u32 {
        family as u32
    }
}

impl Kind {
    // The family of an object.
    #[tactic(auto, unfolding(crate::specs::Family::family_of))]
    pub fn family(self) -> Family
        ensures { result ≡ family_of self }
    {
        match self {
            Kind::Register(_) => Family::Register,
            Kind::WORegister(_) => Family::WORegister,
            Kind::Vec(_) => Family::Vec,
        }
    }
}

// What is of a family: an operation or a return.
pub trait OfFamily: Sized {
    ghost use Rattle.families.specs.Family.{Family};
    ghost use Rattle.values.specs.declared.coded.Coded.{Coded};
    ghost use Rattle.values.specs.declared.coded.Form.{Form};

    ghost family_of_it: { Self → Family };

    ghost form_of: { Family → ℕ → Form };

    ghost told_of: { Family → Coded → Self };

    // Its family.
    fn family(self) -> Family
        ensures { result ≡ family_of_it self };

    // What follows its number, in the family of `kind`.
    fn form(kind: Kind, number: u32) -> Form
        ensures { result ≡ form_of (family_of kind) number };

    // The one that those numbers tell there; that of the last number of the family where they tell none.
    fn told(kind: Kind, coded: Coded) -> Self
        ensures { result ≡ told_of (family_of kind) coded };

    // What is told in a family is of that family.
    ghost told_family: { (f : Family) (c : Coded) → family_of_it (told_of f c) ≡ f };
}

impl OfFamily for Op {
    ghost family_of_it = { op_family };

    ghost form_of = { op_form };

    ghost told_of = { op_from };

    ghost told_family = { op_from_family };

    #[tactic(auto, unfolding(crate::specs::Family::op_family))]
    fn family(self) -> Family {
        match self {
            Op::Register(_) => Family::Register,
            Op::WORegister(_) => Family::WORegister,
            Op::Vec(_) => Family::Vec,
        }
    }

    #[tactic(auto, unfolding(crate::specs::Codes::op_form, crate::specs::Family::family_of))]
    fn form(kind: Kind, number: u32) -> Form {
        match kind {
            Kind::Register(_) => RegisterOp::form(number),
            Kind::WORegister(_) => WORegisterOp::form(number),
            Kind::Vec(_) => VecOp::form(number),
        }
    }

    #[tactic(auto, unfolding(crate::specs::Codes::op_from, crate::specs::Family::family_of))]
    fn told(kind: Kind, coded: Coded) -> Op {
        match kind {
            Kind::Register(_) => Op::Register(RegisterOp::told(coded)),
            Kind::WORegister(_) => Op::WORegister(WORegisterOp::told(coded)),
            Kind::Vec(_) => Op::Vec(VecOp::told(coded)),
        }
    }
}

impl OfFamily for Ret {
    ghost family_of_it = { ret_family };

    ghost form_of = { ret_form };

    ghost told_of = { ret_from };

    ghost told_family = { ret_from_family };

    #[tactic(auto, unfolding(crate::specs::Family::ret_family))]
    fn family(self) -> Family {
        match self {
            Ret::Register(_) => Family::Register,
            Ret::WORegister(_) => Family::WORegister,
            Ret::Vec(_) => Family::Vec,
        }
    }

    #[tactic(auto, unfolding(crate::specs::Codes::ret_form, crate::specs::Family::family_of))]
    fn form(kind: Kind, number: u32) -> Form {
        match kind {
            Kind::Register(_) => RegisterRet::form(number),
            Kind::WORegister(_) => WORegisterRet::form(number),
            Kind::Vec(_) => VecRet::form(number),
        }
    }

    #[tactic(auto, unfolding(crate::specs::Codes::ret_from, crate::specs::Family::family_of))]
    fn told(kind: Kind, coded: Coded) -> Ret {
        match kind {
            Kind::Register(_) => Ret::Register(RegisterRet::told(coded)),
            Kind::WORegister(_) => Ret::WORegister(WORegisterRet::told(coded)),
            Kind::Vec(_) => Ret::Vec(VecRet::told(coded)),
        }
    }
}
