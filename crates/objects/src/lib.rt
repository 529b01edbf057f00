// The families' own files: what a register, a write-once register and a stack answer and leave, and their numbers.
#![tactic(auto)]

pub mod register;
pub mod vec;
pub mod write_once_register;
