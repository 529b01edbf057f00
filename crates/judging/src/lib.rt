// The judges: whether a tester's history has a legal order, within a budget of attempts.
#![tactic(auto)]

pub mod answer;
mod index;
pub mod judge;
mod search;
