// The sizes of document 01.

// A stack has room for this many values.
pub const ROOM: usize = 96;

// The same as a depth.
pub const FULL: u32 = ROOM as u32;

// Threads are numbered from 0 up to one less than this.
pub const THREADS: usize = 8;

// A tester holds at most this many operations, completed and in flight together.
pub const OPERATIONS: usize = 64;

// An initial stack holds at most this many values.
pub const START: u32 = 32;
