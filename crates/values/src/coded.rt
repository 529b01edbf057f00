// Operations, returns and starts in numbers, as files, lists and proposed orders tell them.
ghost use Rattle.std.specs.Prelude.{◌≡◌, ℕ};
ghost use Rattle.values.specs.Coded.{coded, maybe_coded, maybe_from};

use crate::value::{signed_of, zigzag};

// The number in its family, how many values it carries, and the value as a file sends it, 0 where there is none.
// It is no Option: the definitions `words_of` and `same_coded` say a count and a word, which files and proposed orders have.
#[derive(Clone, Copy, PartialEq, Eq)]
pub struct Coded {
    pub number: u32,
    pub count: u32,
    pub word: u32,
}

// What follows the number of an operation or a return: nothing, a number, or a flag and, where it is 1, a number. That the
// number is unknown is a case beside these, and no None around them: who reads asks once, in one match.
#[derive(Clone, Copy, PartialEq, Eq)]
pub enum Form {
    Unknown,
    Bare,
    Number,
    Flagged,
}

// What follows the number of an object: a number, a flag and a number, or a count and so many numbers. Unknown likewise.
#[derive(Clone, Copy, PartialEq, Eq)]
pub enum StartForm {
    Unknown,
    Number,
    Flagged,
    Values,
}

impl Coded {
    // Nothing follows the number.
    pub fn bare(number: u32) -> Coded
        ensures { result ≡ coded number 0 0 }
    {
        Coded {
            number,
            count: 0,
            word: 0,
        }
    }

    // One value follows the number.
    pub fn single(number: u32, word: u32) -> Coded
        ensures { result ≡ coded number 1 word }
    {
        Coded {
            number,
            count: 1,
            word,
        }
    }

    // A value follows the number, or nothing.
    #[tactic(auto, unfolding(crate::specs::Coded::maybe_coded))]
    pub fn maybe(number: u32, value: Option<i32>) -> Coded
        ensures { result ≡ maybe_coded number value }
    {
        match value {
            None => Coded::bare(number),
            Some(v) => Coded::single(number, zigzag(v)),
        }
    }

    // The value that follows, where one does.
    #[tactic(auto, unfolding(crate::specs::Coded::maybe_from))]
    pub fn maybe_value(self) -> Option<i32>
        ensures { result ≡ maybe_from self }
    {
        if self.count == 0 {
            return None;
        }
        Some(signed_of(self.word))
    }
}

// What is told by numbers: an operation or a return of a family.
pub trait Told: Sized {
    ghost use Rattle.values.specs.declared.coded.Coded.{Coded};
    ghost use Rattle.values.specs.declared.coded.Form.{Form};

    ghost form_of: { ℕ → Form };

    ghost told_of: { Coded → Self };

    // What follows the number.
    fn form(number: u32) -> Form
        ensures { result ≡ form_of number };

    // What the numbers say.
    fn told(coded: Coded) -> Self
        ensures { result ≡ told_of coded };
}
