// What an object holds beside a stack's items, in two words whatever its family, and how to undo an operation.

// A register's value; a write-once register's value, with height 0 for nothing; a stack's depth as height.
// It is no enum: a level of the search is small by it, and the theorem `kind_held` says these words of every family.
#[derive(Clone, Copy, PartialEq, Eq)]
pub struct Held {
    pub value: i32,
    pub height: u32,
}

// The one item that an operation changed, and what it was before; at FULL: none.
// It is no Option: the theorem `back_acted` says of the place FULL, as `stack_acted` gives it, that nothing is put back.
#[derive(Clone, Copy, PartialEq, Eq)]
pub struct Undo {
    pub cell: u32,
    pub was: i32,
}

#[derive(Clone, Copy, PartialEq, Eq)]
pub struct Acted {
    pub held: Held,
    pub undo: Undo,
}
