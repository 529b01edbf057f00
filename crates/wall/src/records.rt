// Records that no calls make, and what every call answers of them; each beside the same without its fault. They are made
// by the functions of `faults`, whose promises are the definitions that the list proved in `traces` is made of.
use crate::seen::tell_seen;
use families::{Op, Ret};
use faults::{
    asked as asking, filled, flying, held, noting, overtaken, returned, starting, without_notes,
};
use lists::fields::{from, number_at};
use objects::register::{RegisterOp, RegisterRet};
use objects::vec::{VecOp, VecRet};
use recording::linearizability::LinearizabilityTester;
use std::io;

// A number of a line in 8 bits; the largest where it has more.
pub fn small(fields: &[i64], at: usize) -> u8 {
    number_at(fields, at).unwrap_or(u8::MAX)
}

// An operation and a return, which calls are asked about.
#[derive(Clone, Copy)]
pub struct Asked {
    pub op: Op,
    pub ret: Ret,
}

impl Asked {
    // OP RET
    pub fn at(fields: &[i64]) -> Self {
        let op = op_of(small(fields, 0));
        let ret = ret_of(small(fields, 1));
        Asked { op, ret }
    }
}

// The numbers are those that the text of the traces explains at its head.
fn op_of(number: u8) -> Op {
    match number {
        0 => Op::Register(RegisterOp::Read),
        1 => Op::Vec(VecOp::Pop),
        _ => Op::Vec(VecOp::Push(1)),
    }
}

fn ret_of(number: u8) -> Ret {
    match number {
        0 => Ret::Register(RegisterRet::ReadOk(0)),
        1 => Ret::Vec(VecRet::PopOk(None)),
        _ => Ret::Vec(VecRet::PushOk),
    }
}

// A record by its number in data/traces.txt and four numbers more. Each is read in this one match, so that an enum between
// would be no plainer.
fn record_at(what: u8, fields: &[i64]) -> LinearizabilityTester {
    let a = small(fields, 0);
    let b = small(fields, 1);
    let c = small(fields, 2);
    let d = small(fields, 3);
    match what {
        0 => starting(u32::from(a)),
        1 => filled(usize::from(a), b),
        2 => asking(a, op_of(b), usize::from(c)),
        3 => returned(a, ret_of(b), c, d),
        4 => noting(a, b, c),
        5 => flying(a, b),
        6 => overtaken(a),
        _ => held(usize::from(a)),
    }
}

// What is answered of a tester, and of a sequential one with the same history. The checker is asked about the orders that
// the judges find of the other.
fn tell_both(
    rt: &impl Print,
    tester: LinearizabilityTester,
    beside: LinearizabilityTester,
    asked: Asked,
) -> io::Result<()> {
    print!(rt; "linearizable: ")?;
    tell_seen(rt, tester, beside, asked)?;
    print!(rt; " | sequential: ")?;
    tell_seen(rt, without_notes(tester), without_notes(beside), asked)
}

// OP RET WHAT, four numbers of a record with a fault and four of its neighbour.
pub fn tell_record(rt: &impl Print, fields: &[i64]) -> io::Result<()> {
    let asked = Asked::at(fields);
    let what = small(fields, 2);
    let fault = record_at(what, from(fields, 3));
    let beside = record_at(what, from(fields, 7));
    tell_both(rt, fault, beside, asked)?;
    print!(rt; " || beside it: ")?;
    tell_both(rt, beside, beside, asked)?;
    println!(rt; "")
}
