// Sheets: a draft takes statements, a closed sheet searches for values that break them at least cost.
#![tactic(auto)]

pub mod closed;
pub mod draft;
pub mod held;
mod table;
