// Reports: what is printed of a settled sheet.
#![tactic(auto)]

pub mod account;
pub mod fault;
pub mod found;
pub mod printed;
pub mod report;
pub mod spelling;
mod text;
