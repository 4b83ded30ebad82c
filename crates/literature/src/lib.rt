// Our tables of moments, spells and dwellings, printed; published ones, held against ours; and the laws of a relation algebra, tried.
#![tactic(auto)]

mod algebra;
pub mod comparison;
mod laws;
pub mod letters;
pub mod literature;
pub mod published;
mod relations;
mod score;
pub mod summary;
mod transitivity;
