// The fields of a job file and the numbers in them.
#![tactic(auto)]

pub mod fields;
pub mod numbers;
