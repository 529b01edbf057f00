// Why an event is refused, and in which order the reasons are looked at: 9, 1, 2, 3, then 4 or 5, then 6.
ghost use Rattle.std.specs.Prelude.{◌≡◌, ltb};
ghost use Rattle.values.specs.Sizes.{capacity};
ghost use Rattle.stepping.specs.EventSteps.{breaks as breaks_of, valid_after};
ghost use Rattle.stepping.specs.StepChecks.{place_in, admit_of, invoke_go, return_go};

use crate::recorded::Reason;
use values::refusal::Refusal;
use values::sizes::{OPERATIONS, THREADS};

// Where the thread has its operation in flight.
#[tactic(auto, unfolding(crate::specs::StepChecks::place_in))]
pub(crate) fn place_in(flying: &[Option<usize>; THREADS], thread: u32) -> Option<usize>
    ensures { result ≡ place_in flying.now thread }
{
    *flying.get(thread as usize)?
}

// The refusals that any event can meet first: 9, 1, 2, and what the object says of the operation or return, 3.
#[tactic(auto, unfolding(crate::specs::StepChecks::admit_of, crate::specs::StepChecks::admit_by, crate::specs::StepChecks::checked_of))]
pub(crate) fn admit(
    shaped: bool,
    valid: bool,
    thread: u32,
    own: Result<(), Refusal>,
) -> Result<(), Reason>
    ensures { result ≡ admit_of shaped valid thread own }
{
    if !shaped {
        return Err(Reason::OutOfShape);
    }
    if !valid {
        return Err(Reason::AlreadyInvalid);
    }
    if thread as usize >= THREADS {
        return Err(Reason::NoSuchThread);
    }
    own?;
    Ok(())
}

// An invocation that is admitted: 4, then 6.
pub(crate) fn check_invoke(place: Option<usize>, count: usize) -> Result<(), Reason>
    ensures { result ≡ invoke_go place (ltb count capacity) }
{
    if place.is_some() {
        return Err(Reason::InFlight);
    }
    if count >= OPERATIONS {
        return Err(Reason::Full);
    }
    Ok(())
}

// A return that is admitted: 5.
pub(crate) fn check_return(place: Option<usize>) -> Result<(), Reason>
    ensures { result ≡ return_go place }
{
    match place {
        Some(_) => Ok(()),
        None => Err(Reason::NothingInFlight),
    }
}

// 4 and 5 turn validity off for good.
#[tactic(auto, unfolding(crate::specs::EventSteps::breaks))]
fn breaks(reason: Reason) -> bool
    ensures { result ≡ breaks_of reason }
{
    matches!(reason, Reason::InFlight | Reason::NothingInFlight)
}

#[tactic(auto, unfolding(crate::specs::EventSteps::valid_after))]
pub fn valid_after(valid: bool, recorded: Result<(), Reason>) -> bool
    ensures { result ≡ valid_after valid recorded }
{
    match recorded {
        Err(reason) if breaks(reason) => false,
        _ => valid,
    }
}
