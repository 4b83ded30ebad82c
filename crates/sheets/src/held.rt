// What a draft holds, and what always holds of it.
ghost use Rattle.std.specs.Prelude.{◌≡◌, ◌≤◌, true, length, vec_capacity};
ghost use Rattle.rules.specs.Properly.{proper};

use kinds::kind::Kind;
use rules::row::Row;
use search::ledger::Ledger;
use std::marker::PhantomData;
use tallies::tally::{Joins, Tally};

/// A sheet that takes statements: a number of items, 1 to 12, and a list of at most 256 rows, with memory for all of them
/// and for the tables of a search. Items and rows stand one by one, as in a closed sheet, which is made of any parts or refused.
#[derive(Drop)]
pub struct Draft<K: Kind, T: Tally> {
    pub(crate) items: u8,
    pub(crate) rows: Vec<Row>,
    pub(crate) ledger: Ledger<T::Cost>,
    pub(crate) of: PhantomData<(K, T)>,
    ghost some: { 1 ≤ items },
    ghost few: { items ≤ 12 },
    ghost room: { 256 ≤ vec_capacity rows },
    ghost sound: { proper items rows.items ≡ true },
}

impl<K: Kind, T: Tally> Draft<K, T> {
    /// The number of items.
    pub fn items(&self) -> u8
        ensures { result ≡ self.now.items }
    {
        self.items
    }

    /// How many statements have been entered, struck ones among them.
    pub fn entered(&self) -> usize
        ensures { result ≡ length self.now.rows.items }
    {
        self.rows.len()
    }
}
