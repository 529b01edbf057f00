// Replays lists of answers, and tells how many of them the port agrees with: what stateright 0.31.0 answers
// of bare objects, of events fed to both testers and of whole histories, which proposed orders are legal, and
// what calls of the host on corpus files come to. The lists stand in data/; bench/ makes them, and its README
// describes their lines.
#![tactic(auto)]

mod bare;
mod came;
mod codes;
mod files;
mod list;
mod model;
mod proposals;
mod sequences;
mod tally;
mod verdicts;

use bare::Objects;
use came::Compare;
use files::Files;
use list::List;
use lists::input::read_full;
use lists::lines::Line;
use sequences::{Asks, Sequences};
use std::fs::File;
use std::{fs, io};
use tally::Tally;

// Room for the longest list. Memory is fixed, so that reading a list can't want for it.
const TEXT: usize = 2000000;

// Goes through the lines of a list.
fn replay<C: Compare + Drop>(rt: &impl Print, mut list: C, text: &[u8]) -> io::Result<Tally> {
    let mut tally = Tally::default();
    let mut line = Line::new();
    for &byte in text {
        line.feed(byte);
        if byte == b'\n' {
            let came = list.compare(line.numbers());
            tally.count(rt, came)?;
            line.clear();
        }
    }
    Ok(tally)
}

fn counted(rt: &impl Print, list: List, text: &[u8]) -> io::Result<Tally> {
    match list {
        List::Objects => replay(rt, Objects::default(), text),
        List::Events => replay(rt, Sequences::new(Asks::Events), text),
        List::Histories => replay(rt, Sequences::new(Asks::Verdicts), text),
        List::Orders => replay(rt, Sequences::new(Asks::Orders), text),
        List::Files => replay(rt, Files, text),
    }
}

// Handed out by a function, so that only its length is known where it is lent: the check would go through a literal
// of this length.
fn blank() -> [u8; TEXT] {
    [0; TEXT]
}

// The list that a file holds.
fn read(rt: &HostRuntime, mut file: File, list: List) -> io::Result<()> {
    let mut text = blank();
    let length = read_full(&mut file, &mut text)?;
    if length == TEXT {
        return println!(rt; "the list is too long");
    }
    let tally = counted(rt, list, &text[..length])?;
    tally.print(rt, list)
}

fn open(rt: &HostRuntime, list: List) -> io::Result<()> {
    let path = list.path();
    println!(rt; "{path}")?;
    match fs::open(rt, path) {
        Ok(file) => read(rt, file, list),
        Err(error) => {
            eprintln!(rt; "{path}: {error}")?;
            println!(rt; "the list can't be opened")
        }
    }
}

fn main(rt: HostRuntime) -> io::Result<()> {
    let all = [
        List::Objects,
        List::Events,
        List::Histories,
        List::Orders,
        List::Files,
    ];
    for list in all {
        open(&rt, list)?;
    }
    Ok(())
}
