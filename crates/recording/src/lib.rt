// Recording: events of a history fed to a linearizability tester or a sequential-consistency tester, in
// any order whatever.
#![tactic(auto)]

pub mod consistency_tester;
pub mod linearizability;
pub mod sequential_consistency;
