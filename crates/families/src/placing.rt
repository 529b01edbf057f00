// Placing an operation on lent items and undoing it, for a search that goes back and forth. What an
// object holds beside a stack's items stands in two words, whatever its family, so that a level of the
// search is small. The items and those words stay two parameters: `act` is lent the items to write and the others to
// read, so that one struct of both would be made anew for each call, and be no plainer.
ghost use Rattle.std.specs.Prelude.{◌≡◌};
ghost use Rattle.families.specs.Placing.{once_of, held_once, held_of, kind_of, answer_of, right_of, fits_of, given_of, acted_of, leaves_of, back_of, leaves_wrong};

use crate::{Kind, Op, Ret};
use objects::{register, vec, write_once_register};
use values::held::{Acted, Held, Undo};
use values::sizes::{FULL, ROOM};

// Held and Option are of other crates, so neither this nor its way back can be a From.
#[tactic(auto, unfolding(crate::specs::Placing::once_of))]
pub(crate) fn once_of(held: Held) -> Option<i32>
    ensures { result ≡ once_of held }
{
    (held.height != 0).then_some(held.value)
}

#[tactic(auto, unfolding(crate::specs::Placing::held_once))]
pub(crate) fn held_once(stored: Option<i32>) -> Held
    ensures { result ≡ held_once stored }
{
    match stored {
        None => Held {
            value: 0,
            height: 0,
        },
        Some(value) => Held { value, height: 1 },
    }
}

// What an object holds, in two words. This is no From, since its way back, kind_of, takes the kind besides and can't
// be one: two names that belong together are plainer.
#[tactic(auto, unfolding(crate::specs::Placing::held_of))]
pub fn held_of(kind: Kind) -> Held
    ensures { result ≡ held_of kind }
{
    match kind {
        Kind::Register(value) => Held { value, height: 0 },
        Kind::WORegister(stored) => held_once(stored),
        Kind::Vec(height) => Held { value: 0, height },
    }
}

// What two words say of an object of the family of `kind`.
#[tactic(auto, unfolding(crate::specs::Placing::kind_of))]
pub fn kind_of(kind: Kind, held: Held) -> Kind
    ensures { result ≡ kind_of kind held }
{
    match kind {
        Kind::Register(_) => Kind::Register(held.value),
        Kind::WORegister(_) => Kind::WORegister(once_of(held)),
        Kind::Vec(_) => Kind::Vec(held.height),
    }
}

// What the object answers.
#[tactic(auto, unfolding(crate::specs::Placing::answer_of))]
pub fn answer(items: &[i32; ROOM], held: Held, op: Op) -> Ret
    ensures { result ≡ answer_of items.now held op }
{
    match op {
        Op::Register(op) => Ret::Register(register::answer(held.value, op)),
        Op::WORegister(op) => Ret::WORegister(write_once_register::answer(once_of(held), op)),
        Op::Vec(op) => Ret::Vec(vec::answer(items, held.height, op)),
    }
}

// Whether a return is right.
#[tactic(auto, unfolding(crate::specs::Placing::right_of, crate::specs::Placing::answer_of, crate::specs::Families::same_ret, crate::specs::Family::family_number, crate::specs::Family::ret_family, crate::specs::Codes::ret_coded))]
pub fn right(items: &[i32; ROOM], held: Held, op: Op, ret: Ret) -> bool
    ensures { result ≡ right_of items.now held op ret }
{
    match (op, ret) {
        (Op::Register(op), Ret::Register(ret)) => register::right(held.value, op, ret),
        (Op::WORegister(op), Ret::WORegister(ret)) => write_once_register::right(
            once_of(held),
            op,
            ret,
        ),
        (Op::Vec(op), Ret::Vec(ret)) => vec::right(items, held.height, op, ret),
        _ => false,
    }
}

// Whether an operation may be placed here: in flight always, returned where its return is right.
#[tactic(auto, unfolding(crate::specs::Placing::fits_of))]
pub fn fits(items: &[i32; ROOM], held: Held, op: Op, outcome: Option<Ret>) -> bool
    ensures { result ≡ fits_of items.now held op outcome }
{
    outcome.is_none_or(|ret| right(items, held, op, ret))
}

// The return that an operation has here: the recorded one, or while in flight the one that the object gives.
#[tactic(auto, unfolding(crate::specs::Placing::given_of))]
pub fn given(items: &[i32; ROOM], held: Held, op: Op, outcome: Option<Ret>) -> Ret
    ensures { result ≡ given_of items.now held op outcome }
{
    outcome.unwrap_or_else(|| answer(items, held, op))
}

// An operation on the object, and how to undo it.
#[tactic(auto, unfolding(objects::specs::Stack::item_at, objects::specs::Stack::stack_acted, crate::specs::Placing::acted_of, crate::specs::Placing::leaves_of, crate::specs::Placing::held_after, crate::specs::Placing::changes))]
pub fn act(items: &mut [i32; ROOM], held: Held, op: Op) -> Acted
    ensures value { result ≡ acted_of items.old held op }
    ensures after { items.new ≡ leaves_of items.old held op }
{
    let undo = Undo { cell: FULL, was: 0 };
    match op {
        Op::Register(op) => {
            let value = register::after(held.value, op);
            let held = Held { value, ..held };
            Acted { held, undo }
        }
        Op::WORegister(op) => {
            let held = held_once(write_once_register::after(once_of(held), op));
            Acted { held, undo }
        }
        Op::Vec(op) => vec::act(items, held, op),
    }
}

#[tactic(auto, unfolding(crate::specs::Placing::back_of))]
pub fn take_back(items: &mut [i32; ROOM], undo: Undo)
    ensures { items.new ≡ back_of items.old undo }
{
    if undo.cell < FULL {
        items[undo.cell as usize] = undo.was;
    }
}

// Whether an operation leaves what it would though its return is wrong: a Pop with a PopOk, as in the crate.
#[tactic(auto, unfolding(crate::specs::Placing::leaves_wrong, crate::specs::Placing::takes, crate::specs::Placing::taken))]
pub fn leaves_wrong(op: Op, ret: Ret) -> bool
    ensures { result ≡ leaves_wrong op ret }
{
    match (op, ret) {
        (Op::Vec(op), Ret::Vec(ret)) => vec::pops(op) && vec::popped(ret),
        _ => false,
    }
}
