// A line of numbers, read byte by byte.
ghost use Rattle.std.specs.Prelude.{◌≡◌, ◌≢◌, ◌+◌, ◌≤◌, [], length};

use arrayvec::ArrayVec;
use std::marker::Model;

// Room for the numbers of a line. A history of 96 pushes and 96 pops that leaves 95 values has 1,059.
pub const LONGEST: usize = 1200;

// The largest size of a number that is read, above every number of the lists.
const LARGEST: i64 = 4294967296;

// How far a line is read: of the number that comes next its digits so far, and whether a sign stands before it.
#[derive(Clone, Copy)]
pub struct Reading {
    digits: Option<i64>,
    is_below: bool,
    // The line has anything but numbers, or too many, and is read as one with none. Numbers and this are no Option: behind
    // what spoils a line the numbers of its rest are still read over, into the same place.
    is_spoilt: bool,
}

// Nothing is read.
const BEGUN: Reading = Reading {
    digits: None,
    is_below: false,
    is_spoilt: false,
};

// A line as far as it is read, with the numbers that are whole. They lie in the value itself: memory is fixed, so that
// reading can't want for it. Contracts see a line as its numbers.
#[derive(Clone, Drop)]
pub struct Line {
    numbers: ArrayVec<i64, LONGEST>,
    reading: Reading,
}

impl Model for Line {
    ghost use Rattle.std.specs.Prelude.{List, ℤ};

    ghost Value = { List ℤ };

    ghost view = { λ l. l.numbers.items };
}

impl Line {
    // A line of which nothing is read.
    pub fn new() -> Self
        ensures { result ≡ [] }
    {
        Line {
            numbers: ArrayVec::new(),
            reading: BEGUN,
        }
    }

    // One byte more: a blank or the line's end behind each number, a sign before one that is below zero.
    pub fn feed(&mut self, byte: u8)
        ensures one_more { length self.new ≤ length self.old + 1 }
        ensures within { byte ≢ 32 → byte ≢ 10 → length self.new ≤ length self.old }
    {
        match byte {
            b' ' | b'\n' => self.end_number(),
            b'-' if self.reading.digits.is_none() => self.reading.is_below = true,
            b'0'..=b'9' => self.add_digit(byte - b'0'),
            _ => self.spoil(),
        }
    }

    // The numbers of a line that is read to its end; none where it has anything else.
    pub fn numbers(&self) -> &[i64]
        ensures value { result.now ≡ self.now }
        ensures fits { length result.now ≤ LONGEST }
    {
        self.numbers.as_slice()
    }

    // Begins the next line.
    pub fn clear(&mut self)
        ensures { self.new ≡ [] }
    {
        self.numbers.clear();
        self.reading = BEGUN;
    }

    fn spoil(&mut self)
        ensures { self.new ≡ [] }
    {
        self.numbers.clear();
        self.reading.is_spoilt = true;
    }

    fn add_digit(&mut self, digit: u8)
        ensures { self.new ≡ self.old }
    {
        let size = self.reading.digits.unwrap_or(0);
        let longer = size.saturating_mul(10).saturating_add(i64::from(digit));
        self.reading.digits = Some(longer);
    }

    // The number that has ended; zero has no sign.
    fn number(&self) -> Option<i64> {
        match (self.reading.digits?, self.reading.is_below) {
            (0, true) => None,
            (size @ 0..=LARGEST, true) => Some(-size),
            (size @ 0..=LARGEST, false) => Some(size),
            _ => None,
        }
    }

    fn end_number(&mut self)
        ensures { length self.new ≤ length self.old + 1 }
    {
        let is_kept = match self.number() {
            Some(number) if !self.reading.is_spoilt => self.numbers.try_push(number).is_ok(),
            _ => false,
        };
        if !is_kept {
            self.spoil();
        }
        self.reading.digits = None;
        self.reading.is_below = false;
    }
}
