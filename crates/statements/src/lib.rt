// Statements: as they are entered, as a sheet keeps them, as they are read back; and why a call is refused.
#![tactic(auto)]

mod codes;
pub mod converses;
pub mod entry;
pub mod fault;
pub mod reading;
pub mod statement;
