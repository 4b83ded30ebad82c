// All sheets of a file are settled, from the bytes of the file to all that is printed.
#![tactic(auto)]

pub mod file;
mod sheet;
pub mod stop;
