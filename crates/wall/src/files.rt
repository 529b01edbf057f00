// The traces of files: what a file loads to, and what the host call answers of one.
use corpus::linearizability::load;
use families::Kind;
use host::kilteshva_judge;
use judging::answer::NOBODY;
use lists::fields::all_of;
use std::io;

// Room for a file.
const FILE: usize = 32;

// The size of an answer of the host call.
const ANSWER: usize = 79;

// A byte that the host call has to write over.
const UNWRITTEN: u8 = 0xAA;

// Bytes as document 01 writes them, with a blank before each.
fn tell_bytes(rt: &impl Print, bytes: &[u8]) -> io::Result<()> {
    for byte in bytes {
        print!(rt; " {byte:02X}")?;
    }
    Ok(())
}

// The bytes of an answer; of the places that are not taken only how many there are.
fn tell_answer(rt: &impl Print, bytes: &[u8]) -> io::Result<()> {
    let taken = match bytes.iter().rposition(|&byte| byte != NOBODY) {
        Some(last) => last + 1,
        None => 0,
    };
    let (taken, rest) = bytes.split_at(taken);
    tell_bytes(rt, taken)?;
    print!(rt; ", {} times FF", rest.len())
}

// What the host call answers by that model.
fn tell_model(rt: &impl Print, file: &[u8], model: u32, budget: u64) -> io::Result<()> {
    let mut answer = [UNWRITTEN; ANSWER];
    let number = kilteshva_judge(file, model, budget, &mut answer);
    print!(rt; "{number};")?;
    tell_answer(rt, &answer)
}

// The file of these bytes, loaded.
pub fn tell_loaded(rt: &impl Print, bytes: &[i64]) -> io::Result<()> {
    let Some(file) = all_of::<u8, FILE>(bytes) else {
        return println!(rt; "unreadable");
    };
    tell_bytes(rt, file.as_slice())?;
    let loaded = load(file.as_slice());
    print!(rt; ": {}, place {}", loaded.number, loaded.place)?;
    match loaded.tester.history.start.kind {
        Kind::Register(value) => println!(rt; "; a register at {value}"),
        _ => println!(rt; "; no register"),
    }
}

// The file of these bytes, judged within the budget.
pub fn tell_judged(rt: &impl Print, budget: u64, bytes: &[i64]) -> io::Result<()> {
    let Some(file) = all_of::<u8, FILE>(bytes) else {
        return println!(rt; "unreadable");
    };
    tell_bytes(rt, file.as_slice())?;
    print!(rt; ", budget {budget}: linearizable: ")?;
    tell_model(rt, file.as_slice(), 1, budget)?;
    print!(rt; " | sequential: ")?;
    tell_model(rt, file.as_slice(), 0, budget)?;
    println!(rt; "")
}
