// The reference objects, bare: what each operation answers and leaves, and whether a return, or a sequential history
// of them, is right. What is particular to a family stands in `families`.
#![tactic(auto)]

mod refusal;

ghost use Rattle.std.specs.Prelude.{◌≡◌};
ghost use Rattle.semantics.specs.Calls.{answer_by, left_by, invoke_of, step_of, begun_of, then_of};

use families::refusal::check_shape;
use families::{Object, Op, Ret, placing};
use refusal::{check_invoke, check_said, check_step};
use values::refusal::Refusal;

// What a call answers, and the object that it leaves: after a refusal as it came.
#[derive(Clone, Copy)]
pub struct Invoked {
    pub answer: Result<Ret, Refusal>,
    pub object: Object,
}

// Whether a return, or a history, is right, and the object that is left. It is no one type with Invoked, since theorems name
// what each says, answer and said.
#[derive(Clone, Copy)]
pub struct Stepped {
    pub said: Result<bool, Refusal>,
    pub object: Object,
}

// What an object answers to an operation of its family.
#[tactic(auto, unfolding(crate::specs::Calls::answer_by))]
fn answer_by(object: Object, op: Op) -> Ret
    ensures { result ≡ answer_by object op }
{
    placing::answer(&object.items, placing::held_of(object.kind), op)
}

// What an object is after an operation of its family.
#[tactic(auto, unfolding(crate::specs::Calls::left_by, families::specs::Placing::acted_of))]
fn left_by(object: Object, op: Op) -> Object
    ensures { result ≡ left_by object op }
{
    let mut items = object.items;
    let acted = placing::act(&mut items, placing::held_of(object.kind), op);
    Object {
        kind: placing::kind_of(object.kind, acted.held),
        items,
    }
}

// Invokes an operation on an object.
#[tactic(auto, unfolding(crate::specs::Calls::invoke_of))]
pub fn invoke(object: Object, op: Op) -> Invoked
    ensures { result ≡ invoke_of object op }
{
    match check_invoke(object.kind, op) {
        Ok(()) => Invoked {
            answer: Ok(answer_by(object, op)),
            object: left_by(object, op),
        },
        Err(refusal) => Invoked {
            answer: Err(refusal),
            object,
        },
    }
}

// Whether the return is right; in these families it is where invoking the operation would give it. A wrong Pop pops
// all the same, as in the crate.
#[tactic(auto, unfolding(crate::specs::Calls::step_of))]
pub fn is_valid_step(object: Object, op: Op, ret: Ret) -> Stepped
    ensures { result ≡ step_of object op ret }
{
    let kind = object.kind;
    if let Err(refusal) = check_step(kind, op, ret) {
        return Stepped {
            said: Err(refusal),
            object,
        };
    }
    if placing::right(&object.items, placing::held_of(kind), op, ret) {
        return Stepped {
            said: Ok(true),
            object: left_by(object, op),
        };
    }
    if placing::leaves_wrong(op, ret) {
        let popped = left_by(object, op);
        return Stepped {
            said: Ok(false),
            object: popped,
        };
    }
    Stepped {
        said: Ok(false),
        object,
    }
}

// Whether a sequential history is right for an object: `is_valid_history(object)` is the answer for no
// steps, and `.then(op, ret)` the answer for one step more, of any number.
#[tactic(auto, unfolding(crate::specs::Calls::begun_of))]
pub fn is_valid_history(object: Object) -> Stepped
    ensures { result ≡ begun_of object }
{
    Stepped {
        said: check_shape(object.kind).map(|_| true),
        object,
    }
}

impl Stepped {
    // The first no or refusal stays; a record that calls could not have made gets 9.
    #[tactic(auto, unfolding(crate::specs::Calls::then_of))]
    pub fn then(self, op: Op, ret: Ret) -> Self
        ensures { result ≡ then_of self op ret }
    {
        let Self { said, object } = self;
        match check_said(object.kind, said) {
            Err(refusal) => Self {
                said: Err(refusal),
                object,
            },
            Ok(()) => match said {
                Ok(true) => is_valid_step(object, op, ret),
                Ok(false) | Err(_) => self,
            },
        }
    }
}
