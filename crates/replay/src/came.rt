// What a line came to.

// An answer to one of a list's three calls on one of its three groups, and whether the port agrees with it. Group and call are
// places in the tally, and no enums, since they are families and calls in one list and models in another.
#[derive(Clone, Copy)]
pub struct Answered {
    pub group: usize,
    pub call: usize,
    pub agrees: bool,
}

#[derive(Clone, Copy)]
pub enum Came {
    Started,
    // An event of which the list says nothing.
    Fed,
    Answered(Answered),
}

// A list that is gone through line by line. What a line starts lives on up to the next line that starts anew.
pub trait Compare {
    // What the port says to a line, compared with what the line says; nothing where it can't be read.
    fn compare(&mut self, line: &[i64]) -> Option<Came>;
}
