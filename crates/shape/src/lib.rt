// Whether a record is one that calls could have made: a history in one pass over its operations, and the notes beside it.
#![tactic(auto)]

pub mod notes;

ghost use Rattle.std.specs.Prelude.{◌≡◌, true};
ghost use Rattle.stepping.specs.Shape.{operation_fits, outcome_fits, shaped_with};
ghost use Rattle.shape.specs.Pass.{look_of, sizes_fit, counts_in, left_after, flying_after};

use families::refusal::{belongs, check_start};
use families::{Kind, Ret};
use stepping::histories::{History, Operation};
use values::sizes::{OPERATIONS, THREADS};

// One in flight fits, and one that has returned if its return is the object's.
#[tactic(auto, unfolding(stepping::specs::Shape::outcome_fits, families::specs::Refusals::ret_belongs))]
fn outcome_fits(outcome: Option<Ret>, kind: Kind) -> bool
    ensures { result ≡ outcome_fits kind outcome }
{
    match outcome {
        None => true,
        Some(ret) => belongs(kind, ret).is_ok(),
    }
}

// An operation of one of the threads, that the object has.
#[tactic(auto, unfolding(stepping::specs::Shape::operation_fits, families::specs::Refusals::op_belongs))]
fn operation_fits(o: Operation, kind: Kind) -> bool
    ensures { result ≡ operation_fits kind o }
{
    (o.thread as usize) < THREADS && belongs(kind, o.op).is_ok() && outcome_fits(o.outcome, kind)
}

// Counts an operation: it fits, one in flight is its thread's last, and one that has returned is among
// those still to come. Answers false where it is not so.
#[tactic(auto, using(crate::proofs::Looking::fits_known), unfolding(crate::specs::Pass::counts_in, crate::specs::Pass::goes_on, crate::specs::Pass::left_after, crate::specs::Pass::flying_after))]
fn count_in(
    o: Operation,
    kind: Kind,
    at: usize,
    left: &mut [u8; THREADS],
    flying: &mut [Option<usize>; THREADS],
) -> bool
    ensures value { result ≡ counts_in kind left.old flying.old o }
    ensures left_after { result ≡ true → left.new ≡ left_after left.old o }
    ensures flying_after { result ≡ true → flying.new ≡ flying_after at flying.old o }
{
    if !operation_fits(o, kind) {
        return false;
    }
    let own = o.thread as usize;
    if flying[own].is_some() {
        return false;
    }
    match o.outcome {
        None => flying[own] = Some(at),
        Some(_) => {
            if left[own] == 0 {
                return false;
            }
            left[own] -= 1;
        }
    }
    true
}

// Not too many operations, and an object that a tester can start with.
#[tactic(auto, unfolding(crate::specs::Pass::sizes_fit))]
fn sizes_fit(noted: bool, count: usize, kind: Kind) -> bool
    ensures { result ≡ sizes_fit noted count kind }
{
    noted && count <= OPERATIONS && check_start(kind).is_ok()
}

// Where each thread has its operation in flight, if the history is in shape. `noted`: what stands beside the history
// is in shape.
pub fn look_at(history: &History, noted: bool) -> Option<[Option<usize>; THREADS]>
    ensures { result ≡ look_of (shaped_with noted history.now) history.now }
{
    let kind = history.start.kind;
    if !sizes_fit(noted, history.count, kind) {
        return None;
    }
    let mut left = history.done;
    let mut flying = [None; THREADS];
    for (at, o) in history.ops[..history.count].iter().enumerate() {
        if !count_in(*o, kind, at, &mut left, &mut flying) {
            return None;
        }
    }
    if left == [0; THREADS] {
        Some(flying)
    } else {
        None
    }
}
