// The table of numbers: what tells a return, and what an object starts with.
ghost use Rattle.std.specs.Prelude.{◌≡◌};
ghost use Rattle.families.specs.Codes.{ret_coded, start_form, start_from};

use crate::{Object, Ret};
use values::coded::{Coded, StartForm};
use values::sizes::ROOM;
use values::value::signed_of;

// The numbers that tell a return.
impl From<Ret> for Coded {
    ghost from_gives = { λ ret coded. coded ≡ ret_coded ret };

    #[tactic(auto, unfolding(crate::specs::Codes::ret_coded))]
    fn from(ret: Ret) -> Coded {
        match ret {
            Ret::Register(ret) => Coded::from(ret),
            Ret::WORegister(ret) => Coded::from(ret),
            Ret::Vec(ret) => Coded::from(ret),
        }
    }
}

// What follows the number of an object.
#[tactic(auto, unfolding(crate::specs::Codes::start_form))]
pub fn start_form(number: u32) -> StartForm
    ensures { result ≡ start_form number }
{
    match number {
        0 => StartForm::Number,
        1 => StartForm::Flagged,
        2 => StartForm::Values,
        _ => StartForm::Unknown,
    }
}

// The object that starts with those numbers and items, which are two things, so that this is no From.
#[tactic(auto, unfolding(crate::specs::Codes::start_from))]
pub fn start_from(coded: Coded, items: [i32; ROOM]) -> Object
    ensures { result ≡ start_from coded items }
{
    match coded.number {
        0 => Object::register(signed_of(coded.word)),
        1 => Object::write_once_register(coded.maybe_value()),
        _ => Object::stack(items, coded.count),
    }
}
