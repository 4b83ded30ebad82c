// Files of sheets: a reader over the bytes of a whole file, which answers its heads in turn and loads their statements into drafts.
#![tactic(auto)]

pub mod calls;
pub mod class;
pub mod fault;
pub mod head;
pub mod laws;
pub mod letter;
mod load;
pub mod number;
pub mod parts;
pub mod reader;
mod seek;
pub mod statement;
pub mod words;
