//! What broken statements cost: penalties, their joins, and the order of costs.
//!
//! A tally turns a broken statement into a penalty, joins penalties, and compares costs.
//! The cost of an answer is the join of the penalties of the statements that it breaks.
#![tactic(auto)]

pub mod by_weight;
pub mod claim;
pub mod cost;
pub mod sworn_first;
pub mod tally;
