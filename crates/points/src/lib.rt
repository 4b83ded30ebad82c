// Points on axes: scenarios in a list, sets of base relations as bits, and the rank of a mark.
#![tactic(auto)]

pub mod axis;
pub mod scenario;
pub mod set;
