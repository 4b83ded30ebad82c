// The search for a scenario that breaks statements at least cost.
#![tactic(auto)]

pub mod cost;
pub mod cursor;
pub mod ledger;
pub mod parts;
pub mod prefix;
pub mod sheet;
pub mod step;
pub mod table;
