// Records that no calls make, for number 9 of document 01: each function makes records that differ in one thing, so that
// one of them has a fault and its neighbour has none. `traces` proves what comes of them, and `wall` runs them.
#![tactic(auto)]

ghost use Rattle.std.specs.Prelude.{◌≡◌, set};
ghost use Rattle.stepping.specs.Record.{blank_operation};
ghost use Rattle.recording.specs.Testers.{sequential as sequential_of};
ghost use Rattle.faults.specs.Records.{calling as calling_of, reading as reading_of, answer as answer_of, read as read_of, counters as counters_of, one_note, record_of, starting as starting_of, filled as filled_of, asked as asked_of, returned as returned_of, noting as noting_of, flying as flying_of, overtaken as overtaken_of, held as held_of};

use families::{Object, Op, Ret, no_op};
use objects::register::{RegisterOp, RegisterRet};
use recording::linearizability::LinearizabilityTester;
use recording::sequential_consistency::SequentialConsistencyTester;
use shape::notes::NOTES;
use stepping::histories::{History, Operation};
use values::sizes::{OPERATIONS, ROOM, THREADS};

// What stands in a place that was never taken.
fn untaken() -> Operation
    ensures { result ≡ blank_operation }
{
    calling(0, no_op())
}

// An operation in flight.
fn calling(thread: u8, op: Op) -> Operation
    ensures { result ≡ calling_of thread op }
{
    Operation {
        thread,
        op,
        outcome: None,
    }
}

// A Read in flight.
fn reading(thread: u8) -> Operation
    ensures { result ≡ reading_of thread }
{
    calling(thread, Op::Register(RegisterOp::Read))
}

// A Read with that return.
fn answer(thread: u8, ret: Ret) -> Operation
    ensures { result ≡ answer_of thread ret }
{
    Operation {
        outcome: Some(ret),
        ..reading(thread)
    }
}

// A Read of 0.
fn read(thread: u8) -> Operation
    ensures { result ≡ read_of thread }
{
    answer(thread, Ret::Register(RegisterRet::ReadOk(0)))
}

// The counter of a thread as it is said.
fn counted(mut done: [u8; THREADS], thread: u8, n: u8) -> [u8; THREADS]
    ensures { result ≡ set done thread n }
{
    let t = thread as usize;
    if t < THREADS {
        done[t] = n;
    }
    done
}

// No operations are counted, but those of two threads.
#[tactic(auto, unfolding(crate::specs::Records::counters))]
fn counters(first: u8, n: u8, second: u8, m: u8) -> [u8; THREADS]
    ensures { result ≡ counters_of first n second m }
{
    counted(counted([0; THREADS], first, n), second, m)
}

// No notes, but at one place.
#[tactic(auto, unfolding(crate::specs::Records::one_note))]
fn one_note(place: usize, note: u8) -> [u8; NOTES]
    ensures { result ≡ one_note place note }
{
    let mut notes = [0; NOTES];
    if place < NOTES {
        notes[place] = note;
    }
    notes
}

// A record of a register: two operations, of which so many are held.
#[tactic(auto, unfolding(crate::specs::Records::record_of))]
fn of_two(
    first: Operation,
    second: Operation,
    count: usize,
    done: [u8; THREADS],
    notes: [u8; NOTES],
) -> LinearizabilityTester
    ensures { result ≡ record_of first second count done notes }
{
    let start = Object::default_register();
    let mut ops = [untaken(); OPERATIONS];
    ops[0] = first;
    ops[1] = second;
    let history = History {
        start,
        ops,
        count,
        done,
        valid: true,
    };
    LinearizabilityTester { history, notes }
}

// Nothing recorded, of a stack of that depth.
#[tactic(auto, unfolding(crate::specs::Records::starting))]
pub fn starting(depth: u32) -> LinearizabilityTester
    ensures { result ≡ starting_of depth }
{
    let items = [0; ROOM];
    let start = Object::stack(items, depth);
    let history = History {
        start,
        ops: [untaken(); OPERATIONS],
        count: 0,
        done: [0; THREADS],
        valid: true,
    };
    LinearizabilityTester {
        history,
        notes: [0; NOTES],
    }
}

// As many completed Reads of thread 0 as a tester holds, and the count that is said; the last one notes so many of the
// last thread.
#[tactic(auto, unfolding(crate::specs::Records::filled))]
pub fn filled(count: usize, note: u8) -> LinearizabilityTester
    ensures { result ≡ filled_of count note }
{
    let start = Object::default_register();
    let history = History {
        start,
        ops: [read(0); OPERATIONS],
        count,
        done: counters(0, OPERATIONS as u8, 0, OPERATIONS as u8),
        valid: true,
    };
    LinearizabilityTester {
        history,
        notes: one_note(NOTES - 1, note),
    }
}

// One operation in flight, and the count that is said.
#[tactic(auto, unfolding(crate::specs::Records::asked))]
pub fn asked(thread: u8, op: Op, count: usize) -> LinearizabilityTester
    ensures { result ≡ asked_of thread op count }
{
    of_two(
        calling(thread, op),
        untaken(),
        count,
        counters(0, 0, 0, 0),
        one_note(0, 0),
    )
}

// One Read with that return, counted, and the counter of a thread as it is said.
#[tactic(auto, unfolding(crate::specs::Records::returned))]
pub fn returned(thread: u8, ret: Ret, counter: u8, counted: u8) -> LinearizabilityTester
    ensures { result ≡ returned_of thread ret counter counted }
{
    of_two(
        answer(thread, ret),
        untaken(),
        1,
        counters(thread, 1, counter, counted),
        one_note(0, 0),
    )
}

// A completed Read of thread 0, and then one in flight that notes so many of thread `other`.
#[tactic(auto, unfolding(crate::specs::Records::noting))]
pub fn noting(own: u8, other: u8, note: u8) -> LinearizabilityTester
    ensures { result ≡ noting_of own other note }
{
    of_two(
        read(0),
        reading(own),
        2,
        counters(0, 1, 0, 1),
        one_note(THREADS + other as usize, note),
    )
}

// A Read of thread 0 in flight, and then another one that notes so many of thread 0.
#[tactic(auto, unfolding(crate::specs::Records::flying))]
pub fn flying(own: u8, note: u8) -> LinearizabilityTester
    ensures { result ≡ flying_of own note }
{
    of_two(
        reading(0),
        reading(own),
        2,
        counters(0, 0, 0, 0),
        one_note(THREADS, note),
    )
}

// A Read of thread 0 in flight, and then a completed one.
#[tactic(auto, unfolding(crate::specs::Records::overtaken))]
pub fn overtaken(own: u8) -> LinearizabilityTester
    ensures { result ≡ overtaken_of own }
{
    of_two(
        reading(0),
        read(own),
        2,
        counters(own, 1, own, 1),
        one_note(0, 0),
    )
}

// Completed Reads of threads 0 and 1, and the count that is said.
#[tactic(auto, unfolding(crate::specs::Records::held))]
pub fn held(count: usize) -> LinearizabilityTester
    ensures { result ≡ held_of count }
{
    of_two(
        read(0),
        read(1),
        count,
        counters(0, 1, 1, 1),
        one_note(0, 0),
    )
}

// The sequential tester with the same history.
pub fn without_notes(tester: LinearizabilityTester) -> SequentialConsistencyTester
    ensures { result ≡ sequential_of tester.history }
{
    SequentialConsistencyTester {
        history: tester.history,
    }
}
