// The order in which the reasons to refuse a bare step are looked at, 9, 3, 7, and the records that calls could not have made.
ghost use Rattle.std.specs.Prelude.{◌≡◌};
ghost use Rattle.values.specs.Checks.{in_order};
ghost use Rattle.families.specs.Refusals.{op_belongs, shape_check};
ghost use Rattle.semantics.specs.Calls.{invoke_check, step_check, drawn_check, said_check};

use families::placing::held_of;
use families::refusal::{belongs, check_room, check_shape, check_step_room, is_full};
use families::{Kind, Op, Ret};
use values::refusal::Refusal;

// What comes first in either kind of step.
#[tactic(auto, unfolding(values::specs::Checks::in_order, families::specs::Refusals::op_belongs))]
fn check_object(kind: Kind, op: Op) -> Result<(), Refusal>
    ensures { result ≡ in_order (shape_check kind) (op_belongs kind op) }
{
    check_shape(kind)?;
    belongs(kind, op)
}

#[tactic(auto, unfolding(crate::specs::Calls::invoke_check, values::specs::Checks::in_order))]
pub(crate) fn check_invoke(kind: Kind, op: Op) -> Result<(), Refusal>
    ensures { result ≡ invoke_check kind op }
{
    check_object(kind, op)?;
    check_room(held_of(kind), op)
}

#[tactic(auto, unfolding(crate::specs::Calls::step_check, values::specs::Checks::in_order, families::specs::Refusals::ret_belongs))]
pub(crate) fn check_step(kind: Kind, op: Op, ret: Ret) -> Result<(), Refusal>
    ensures { result ≡ step_check kind op ret }
{
    check_object(kind, op)?;
    belongs(kind, ret)?;
    check_step_room(held_of(kind), op, ret)
}

// Whether a step could have refused an object in shape so.
#[tactic(auto, unfolding(crate::specs::Calls::drawn_check))]
fn check_drawn(kind: Kind, refusal: Refusal) -> Result<(), Refusal>
    ensures { result ≡ drawn_check kind refusal }
{
    match refusal {
        Refusal::OtherFamily => Ok(()),
        Refusal::NoRoom if is_full(kind) => Ok(()),
        Refusal::NoRoom | Refusal::StartTooDeep | Refusal::OutOfShape => Err(Refusal::OutOfShape),
    }
}

// Whether calls could have made a record that says this of its object: 9 if not.
#[tactic(auto, unfolding(crate::specs::Calls::said_check, values::specs::Checks::in_order))]
pub(crate) fn check_said(kind: Kind, said: Result<bool, Refusal>) -> Result<(), Refusal>
    ensures { result ≡ said_check kind said }
{
    let shape = check_shape(kind);
    match said {
        Ok(_) => shape,
        Err(refusal) => shape.and(check_drawn(kind, refusal)),
    }
}
