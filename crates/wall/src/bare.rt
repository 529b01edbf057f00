// Bare objects and constructors: what they answer where the object is refused, or what is asked of it.
use crate::records::{Asked, small};
use families::{Object, Ret};
use semantics::{invoke, is_valid_history, is_valid_step};
use std::{fmt, io};
use testers::Testers;
use values::refusal::Refusal;
use values::sizes::ROOM;

// A register at 0, or a stack of so many zeros: 0 and 1 in the text of the traces, which is written by hand.
fn object_of(family: u8, depth: u8) -> Object {
    if family == 0 {
        return Object::default_register();
    }
    Object::stack([0; ROOM], u32::from(depth))
}

// What a call answers, in a word or by the number of the refusal. It is no Result, since a call of either kind is told so.
#[derive(Clone, Copy)]
enum Reply {
    Return,
    Yes,
    No,
    Refused(Refusal),
}

impl From<Result<Ret, Refusal>> for Reply {
    fn from(answer: Result<Ret, Refusal>) -> Self {
        match answer {
            Ok(_) => Reply::Return,
            Err(refusal) => Reply::Refused(refusal),
        }
    }
}

impl From<Result<bool, Refusal>> for Reply {
    fn from(said: Result<bool, Refusal>) -> Self {
        match said {
            Ok(true) => Reply::Yes,
            Ok(false) => Reply::No,
            Err(refusal) => Reply::Refused(refusal),
        }
    }
}

impl fmt::Display for Reply {
    fn fmt<W: fmt::Write>(&self, f: &mut fmt::Formatter<W>) -> fmt::Result {
        match self {
            Reply::Return => write!(f, "a return"),
            Reply::Yes => write!(f, "yes"),
            Reply::No => write!(f, "no"),
            Reply::Refused(refusal) => write!(f, "{}", u8::from(*refusal)),
        }
    }
}

// OP RET FAMILY DEPTH: what `invoke`, a step, a history of no steps and one of that step answer.
pub fn tell_bare(rt: &impl Print, fields: &[i64]) -> io::Result<()> {
    let Asked { op, ret } = Asked::at(fields);
    let object = object_of(small(fields, 2), small(fields, 3));
    let invoked = Reply::from(invoke(object, op).answer);
    let stepped = Reply::from(is_valid_step(object, op, ret).said);
    let begun = is_valid_history(object);
    let walked = Reply::from(begun.then(op, ret).said);
    let none = Reply::from(begun.said);
    println!(rt; "invoke {invoked}, step {stepped}, no steps {none}, one step {walked}")
}

// FAMILY DEPTH: what the constructors answer.
pub fn tell_new(rt: &impl Print, fields: &[i64]) -> io::Result<()> {
    let object = object_of(small(fields, 0), small(fields, 1));
    let answers = Testers::new(object);
    let a = answers.linearizability;
    let b = answers.sequential;
    print!(rt; "linearizable: {}, len {}", a.number, a.len)?;
    println!(rt; " | sequential: {}, len {}", b.number, b.len)
}
