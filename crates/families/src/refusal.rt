// Why an object, an operation or a return is refused.
ghost use Rattle.std.specs.Prelude.{◌≡◌};
ghost use Rattle.families.specs.Family.{family_of};
ghost use Rattle.families.specs.Refusals.{family_check, shape_check, size_check, start_check, is_full, room_check, took_room, step_room};

use crate::family::OfFamily;
use crate::{Kind, Op, Ret};
use objects::vec;
use values::held::Held;
use values::refusal::Refusal;
use values::sizes::FULL;

// Whether an operation, or a return, is one of the object's.
#[tactic(auto, using(crate::proofs::Laws::same_families), unfolding(crate::specs::Refusals::family_check))]
pub fn belongs<T: OfFamily>(kind: Kind, told: T) -> Result<(), Refusal>
    ensures { result ≡ family_check (T.family_of_it told) (family_of kind) }
{
    if told.family() == kind.family() {
        Ok(())
    } else {
        Err(Refusal::OtherFamily)
    }
}

// Whether an object is in shape.
#[tactic(auto, unfolding(crate::specs::Refusals::shape_check))]
pub fn check_shape(kind: Kind) -> Result<(), Refusal>
    ensures { result ≡ shape_check kind }
{
    match kind {
        Kind::Register(_) | Kind::WORegister(_) => Ok(()),
        Kind::Vec(depth) => vec::check_depth(depth),
    }
}

// Whether one in shape is small enough to start with. Apart from check_shape, as a stack's two checks are: one of both would
// take check and refusal from its caller.
#[tactic(auto, unfolding(crate::specs::Refusals::size_check))]
fn check_size(kind: Kind) -> Result<(), Refusal>
    ensures { result ≡ size_check kind }
{
    match kind {
        Kind::Register(_) | Kind::WORegister(_) => Ok(()),
        Kind::Vec(depth) => vec::check_low(depth),
    }
}

// Whether a tester can start with an object.
#[tactic(auto, unfolding(crate::specs::Refusals::start_check, values::specs::Checks::in_order))]
pub fn check_start(kind: Kind) -> Result<(), Refusal>
    ensures { result ≡ start_check kind }
{
    check_shape(kind)?;
    check_size(kind)
}

// Whether an object has no room for one value more.
#[tactic(auto, unfolding(crate::specs::Refusals::is_full))]
pub fn is_full(kind: Kind) -> bool
    ensures { result ≡ is_full kind }
{
    matches!(kind, Kind::Vec(depth) if depth == FULL)
}

// Whether an operation has room.
#[tactic(auto, unfolding(crate::specs::Refusals::room_check))]
pub fn check_room(held: Held, op: Op) -> Result<(), Refusal>
    ensures { result ≡ room_check held op }
{
    match op {
        Op::Register(_) | Op::WORegister(_) => Ok(()),
        Op::Vec(op) => vec::check_room(held.height, op),
    }
}

#[tactic(auto, unfolding(crate::specs::Refusals::took_room))]
fn took_room(ret: Ret) -> bool
    ensures { result ≡ took_room ret }
{
    matches!(ret, Ret::Vec(ret) if vec::pushed(ret))
}

// Whether a step has room: it wants some where its return says that it took it.
#[tactic(auto, unfolding(crate::specs::Refusals::step_room))]
pub fn check_step_room(held: Held, op: Op, ret: Ret) -> Result<(), Refusal>
    ensures { result ≡ step_room held op ret }
{
    if took_room(ret) {
        check_room(held, op)
    } else {
        Ok(())
    }
}
