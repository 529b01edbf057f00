// This crate has specs alone: the search over an abstract tree.
#![tactic(auto)]
