// The rows of a sheet, what they cost, and the step rule of the search with its soundness.
#![tactic(auto)]

pub mod networks;
pub mod row;
pub mod theorems;
