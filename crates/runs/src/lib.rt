// Runs: scripts of calls, what they answer, and the law that every run keeps.
#![tactic(auto)]

pub mod answer;
pub mod call;
mod carry;
mod page;
pub mod replay;
pub mod state;
