// A stack: its values stand in storage of fixed room, bottom first, with the depth beside it.
// It is no Vec, as the project uses no heap; the depth stands apart, in the two words that every object has (`Held`).
ghost use Rattle.std.specs.Prelude.{◌≡◌};
ghost use Rattle.values.specs.Coded.{same_coded};
ghost use Rattle.objects.specs.Stack.{top_of, storage_answer, items_after, pushes as pushes_of, pushed as pushed_of, pops as pops_of, popped as popped_of, depth_check, low_check, stack_room, stack_acted, stack_op_form, stack_op_from, stack_ret_coded, stack_ret_form, stack_ret_from};

use values::coded::{Coded, Form, Told};
use values::held::{Acted, Held, Undo};
use values::refusal::Refusal;
use values::sizes::{FULL, ROOM, START};
use values::value::signed_of;

#[derive(Clone, Copy, PartialEq, Eq)]
pub enum VecOp {
    Push(i32),
    Pop,
    Len,
}

#[derive(Clone, Copy, PartialEq, Eq)]
pub enum VecRet {
    PushOk,
    PopOk(Option<i32>),
    LenOk(u32),
}

// What is on top; beyond the room 0.
#[tactic(auto, unfolding(crate::specs::Stack::top_of, crate::specs::Stack::item_at))]
pub fn top_of(items: &[i32; ROOM], depth: u32) -> Option<i32>
    ensures { result ≡ top_of items.now depth }
{
    let top = depth.checked_sub(1)?;
    Some(items.get(top as usize).copied().unwrap_or(0))
}

#[tactic(auto, unfolding(crate::specs::Stack::storage_answer))]
pub fn answer(items: &[i32; ROOM], depth: u32, op: VecOp) -> VecRet
    ensures { result ≡ storage_answer items.now depth op }
{
    match op {
        VecOp::Push(_) => VecRet::PushOk,
        VecOp::Pop => VecRet::PopOk(top_of(items, depth)),
        VecOp::Len => VecRet::LenOk(depth),
    }
}

// Whether `ret` is the return that the operation has here. By operation, since searches of stacks took 5 % longer with
// `answer(items, depth, op) == ret` than with what stood here before.
pub fn right(items: &[i32; ROOM], depth: u32, op: VecOp, ret: VecRet) -> bool
    ensures { result ≡ same_coded (stack_ret_coded (storage_answer items.now depth op)) (stack_ret_coded ret) }
{
    match op {
        VecOp::Push(_) => VecRet::PushOk == ret,
        VecOp::Pop => VecRet::PopOk(top_of(items, depth)) == ret,
        VecOp::Len => VecRet::LenOk(depth) == ret,
    }
}

// The operation on the storage, and how to undo it. Without room, or without a value to pop, nothing changes.
#[tactic(auto, unfolding(crate::specs::Stack::item_at, crate::specs::Stack::depth_after, crate::specs::Stack::items_after, crate::specs::Stack::frees, crate::specs::Stack::stack_changes, crate::specs::Stack::stack_acted))]
pub fn act(items: &mut [i32; ROOM], held: Held, op: VecOp) -> Acted
    ensures value { result ≡ stack_acted items.old held op }
    ensures after { items.new ≡ items_after items.old held.height op }
{
    let Held {
        value,
        height: depth,
    } = held;
    match op {
        VecOp::Push(v) if depth < FULL => {
            let was = items[depth as usize];
            items[depth as usize] = v;
            Acted {
                held: Held {
                    value,
                    height: depth + 1,
                },
                undo: Undo { cell: depth, was },
            }
        }
        VecOp::Pop if depth != 0 && depth <= FULL => {
            let top = depth - 1;
            let was = items[top as usize];
            // The place that a Pop frees is set to zero.
            items[top as usize] = 0;
            Acted {
                held: Held { value, height: top },
                undo: Undo { cell: top, was },
            }
        }
        _ => Acted {
            held,
            undo: Undo { cell: FULL, was: 0 },
        },
    }
}

#[tactic(auto, unfolding(crate::specs::Stack::pushes))]
pub fn pushes(op: VecOp) -> bool
    ensures { result ≡ pushes_of op }
{
    matches!(op, VecOp::Push(_))
}

#[tactic(auto, unfolding(crate::specs::Stack::pushed))]
pub fn pushed(ret: VecRet) -> bool
    ensures { result ≡ pushed_of ret }
{
    matches!(ret, VecRet::PushOk)
}

#[tactic(auto, unfolding(crate::specs::Stack::pops))]
pub fn pops(op: VecOp) -> bool
    ensures { result ≡ pops_of op }
{
    matches!(op, VecOp::Pop)
}

#[tactic(auto, unfolding(crate::specs::Stack::popped))]
pub fn popped(ret: VecRet) -> bool
    ensures { result ≡ popped_of ret }
{
    matches!(ret, VecRet::PopOk(_))
}

// Whether a stack is in shape: 9. The two checks differ in the refusal besides, and one of both would take it from the caller.
#[tactic(auto, unfolding(crate::specs::Stack::depth_check))]
pub fn check_depth(depth: u32) -> Result<(), Refusal>
    ensures { result ≡ depth_check depth }
{
    if FULL < depth {
        return Err(Refusal::OutOfShape);
    }
    Ok(())
}

// Whether one in shape can be started with: 8.
#[tactic(auto, unfolding(crate::specs::Stack::low_check))]
pub fn check_low(depth: u32) -> Result<(), Refusal>
    ensures { result ≡ low_check depth }
{
    if START < depth {
        return Err(Refusal::StartTooDeep);
    }
    Ok(())
}

#[tactic(auto, unfolding(crate::specs::Stack::stack_room))]
pub fn check_room(depth: u32, op: VecOp) -> Result<(), Refusal>
    ensures { result ≡ stack_room depth op }
{
    if pushes(op) && depth == FULL {
        return Err(Refusal::NoRoom);
    }
    Ok(())
}

impl Told for VecOp {
    ghost form_of = { stack_op_form };

    ghost told_of = { stack_op_from };

    #[tactic(auto, unfolding(crate::specs::Stack::stack_op_form))]
    fn form(number: u32) -> Form {
        match number {
            0 => Form::Number,
            1 | 2 => Form::Bare,
            _ => Form::Unknown,
        }
    }

    #[tactic(auto, unfolding(crate::specs::Stack::stack_op_from))]
    fn told(coded: Coded) -> VecOp {
        match coded.number {
            0 => VecOp::Push(signed_of(coded.word)),
            1 => VecOp::Pop,
            _ => VecOp::Len,
        }
    }
}

impl Told for VecRet {
    ghost form_of = { stack_ret_form };

    ghost told_of = { stack_ret_from };

    #[tactic(auto, unfolding(crate::specs::Stack::stack_ret_form))]
    fn form(number: u32) -> Form {
        match number {
            0 => Form::Bare,
            1 => Form::Flagged,
            2 => Form::Number,
            _ => Form::Unknown,
        }
    }

    #[tactic(auto, unfolding(crate::specs::Stack::stack_ret_from))]
    fn told(coded: Coded) -> VecRet {
        match coded.number {
            0 => VecRet::PushOk,
            1 => VecRet::PopOk(coded.maybe_value()),
            _ => VecRet::LenOk(coded.word),
        }
    }
}

impl From<VecRet> for Coded {
    ghost from_gives = { λ ret coded. coded ≡ stack_ret_coded ret };

    #[tactic(auto, unfolding(crate::specs::Stack::stack_ret_coded))]
    fn from(ret: VecRet) -> Coded {
        match ret {
            VecRet::PushOk => Coded::bare(0),
            VecRet::PopOk(value) => Coded::maybe(1, value),
            VecRet::LenOk(n) => Coded::single(2, n),
        }
    }
}
