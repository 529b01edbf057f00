// Corpus files: the bytes of a file in, a tester fed with its events out. The fields are read by `format`.
#![tactic(auto)]

mod feeding;
pub mod linearizability;
pub mod load;
pub mod sequential_consistency;
mod turns;
