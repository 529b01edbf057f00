// One step of recording: what an event comes to, and what it changes. Whoever holds a history stores the change in it.
ghost use Rattle.std.specs.Prelude.{◌≡◌};
ghost use Rattle.stepping.specs.OneStep.{thread_of, comes_to, place_for, change_of};

use crate::histories::{History, Operation};
use crate::recorded::Reason;
use crate::refusal::{admit, check_invoke, check_return, place_in};
use families::Kind;
use families::event::Event;
use families::refusal::belongs;
use values::sizes::{OPERATIONS, THREADS};

// The history after an event, and what recording came to. A refusal leaves a history too, since 4 and 5 turn off its
// validity.
#[derive(Clone, Copy)]
pub struct Step {
    pub recorded: Result<(), Reason>,
    pub history: History,
}

// What stands after an event that is taken: its operation, how many operations are held, how many its thread has
// completed, and the thread's mark, which says where it then has its operation in flight.
#[derive(Clone, Copy)]
pub struct Change {
    pub operation: Operation,
    pub count: usize,
    pub done: u8,
    pub mark: Option<usize>,
}

#[tactic(auto, unfolding(crate::specs::OneStep::thread_of))]
pub fn thread_of(event: Event) -> u32
    ensures { result ≡ thread_of event }
{
    match event {
        Event::Invoked { thread, .. } | Event::Returned { thread, .. } => thread,
    }
}

// What recording the event comes to, at a history of that validity and that many operations; the marks say where each
// thread has its operation in flight. Kind, marks and count are no struct: each function takes others besides, and the
// loader holds the marks apart from the history.
#[tactic(auto, unfolding(crate::specs::OneStep::comes_to, crate::specs::StepChecks::invoke_check, crate::specs::StepChecks::return_check, families::specs::Refusals::op_belongs, families::specs::Refusals::ret_belongs))]
pub fn comes_to(
    event: Event,
    shaped: bool,
    valid: bool,
    kind: Kind,
    flying: &[Option<usize>; THREADS],
    count: usize,
) -> Result<(), Reason>
    ensures { result ≡ comes_to shaped valid kind flying.now count event }
{
    match event {
        Event::Invoked { thread, op } => {
            admit(shaped, valid, thread, belongs(kind, op))?;
            check_invoke(place_in(flying, thread), count)
        }
        Event::Returned { thread, ret } => {
            admit(shaped, valid, thread, belongs(kind, ret))?;
            check_return(place_in(flying, thread))
        }
    }
}

// The place of its operation: behind those that are held, or where it is in flight.
#[tactic(auto, unfolding(crate::specs::OneStep::place_for, crate::specs::StepChecks::place_at))]
pub fn place_for(event: Event, flying: &[Option<usize>; THREADS], count: usize) -> usize
    ensures { result ≡ place_for event flying.now count }
{
    match event {
        Event::Invoked { .. } => count,
        Event::Returned { thread, .. } => place_in(flying, thread).unwrap_or(0),
    }
}

// What an event that is taken changes, where `o` stands at its place and its thread has completed `done`. The
// remainders are the numbers themselves for what is taken.
#[tactic(auto, unfolding(crate::specs::OneStep::change_of))]
pub fn change_of(event: Event, o: Operation, at: usize, count: usize, done: u8) -> Change
    ensures { result ≡ change_of event o at count done }
{
    match event {
        Event::Invoked { thread, op } => Change {
            operation: Operation {
                thread: (thread % 256) as u8,
                op,
                outcome: None,
            },
            count: count % OPERATIONS + 1,
            done,
            mark: Some(at),
        },
        Event::Returned { ret, .. } => Change {
            operation: Operation {
                outcome: Some(ret),
                ..o
            },
            count,
            done: done % 255 + 1,
            mark: None,
        },
    }
}
