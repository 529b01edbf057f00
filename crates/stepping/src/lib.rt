// The record of a history, and one step of recording: what an event comes to and what it changes. Whoever holds a history
// stores the change in it.
#![tactic(auto)]

pub mod histories;
pub mod recorded;
pub mod refusal;
pub mod step;
