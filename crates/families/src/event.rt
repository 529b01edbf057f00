// Events: a thread invokes an operation, or gets a return.
use crate::{Op, Ret};

#[derive(Clone, Copy, PartialEq, Eq)]
pub enum Event {
    Invoked { thread: u32, op: Op },
    Returned { thread: u32, ret: Ret },
}
