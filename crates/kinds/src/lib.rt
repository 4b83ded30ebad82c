// Kinds of items: what each means, how each is written, and the composition of its base relations.
#![tactic(auto)]

pub mod composition;
pub mod kind;
pub mod notation;
pub mod table;
