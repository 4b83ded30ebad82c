// The calls of a draft.
ghost use Rattle.std.specs.Prelude.{◌≡◌, ◌+◌, ◌-◌, ◌<◌, true, [], ◌∷◌, ◌++◌, length, set, MatchResult, slice_set};
ghost use Rattle.statements.specs.declared.fault.Fault.TheVariants.{Memory};
ghost use Rattle.rules.specs.Properly.{row_proper};
ghost use Rattle.rules.specs.Rows.{with_struck, with_weight};
ghost use Rattle.statements.specs.Drafts.{ByChecks, size_checks, enter_checks, row_of, numbered, strike_checks, reweigh_checks, look_checks, Says};

use crate::held::Draft;
use crate::table::Table;
use kinds::kind::Kind;
use rules::row::Row;
use search::ledger::Ledger;
use statements::entry::Entry;
use statements::fault::Fault;
use statements::reading::statement_of;
use statements::statement::Statement;
use std::alloc::Global;
use std::marker::PhantomData;
use tallies::tally::{Joins, Tally};

impl<K: Kind, T: Tally> Draft<K, T> {
    /// A fresh draft: one item, an empty list. This is the only call that asks for memory.
    pub fn new(heap: Global) -> Result<Draft<K, T>, Fault>
        ensures { MatchResult result (λ d. (d.items ≡ 1) × (d.rows.items ≡ [])) (λ f. f ≡ Memory) }
    {
        let rows = Vec::with_capacity(heap, 256)?;
        let ledger = Ledger::new(heap, T::empty())?;
        Ok(Draft {
            items: 1,
            rows,
            ledger,
            of: PhantomData,
        })
    }

    /// Sets the number of items, 1 to 12, and empties the list.
    pub fn size(&mut self, items: u32) -> Result<(), Fault>
        ensures { ByChecks (size_checks items) result (λ _. (self.new.items ≡ items) × (self.new.rows.items ≡ [])) (self.new ≡ self.old) }
    {
        if !(1..=12).contains(&items) {
            return Err(Fault::Size);
        }
        self.rows.clear();
        // The cast keeps the number, which is at most 12.
        self.items = items as u8;
        Ok(())
    }

    /// Appends a statement and answers its number.
    pub fn enter(&mut self, entry: Entry) -> Result<u16, Fault>
        ensures { ByChecks (enter_checks K.Kind.meaning.codes self.old.items self.old.rows.items entry) result (λ n. (n ≡ length self.old.rows.items + 1) × (self.new.items ≡ self.old.items) × (self.new.rows.items ≡ self.old.rows.items ++ row_of K.Kind.meaning.converse K.Kind.meaning.codes entry ∷ [])) (self.new ≡ self.old) }
    {
        let row = entry.row::<K>(self.items)?;
        if self.rows.len() >= 256 {
            return Err(Fault::Full);
        }
        Ok(self.append(row))
    }

    /// Appends a proper row, for which there is room, and answers its number.
    fn append(&mut self, row: Row) -> u16
        requires { (row_proper self.old.items row ≡ true) × (length self.old.rows.items < 256) }
        ensures { (result ≡ length self.old.rows.items + 1) × (self.new.items ≡ self.old.items) × (self.new.rows.items ≡ self.old.rows.items ++ row ∷ []) }
    {
        self.rows.push(row).unwrap();
        // The cast keeps the number, which is at most 256.
        self.rows.len() as u16
    }

    /// Strikes a statement: its mark is set, and no other row is touched.
    pub fn strike(&mut self, number: u32) -> Result<(), Fault>
        ensures { ByChecks (strike_checks self.old.rows.items number) result (λ _. (self.new.items ≡ self.old.items) × (self.new.rows.items ≡ slice_set self.old.rows.items (number - 1) (with_struck (numbered self.old.rows.items number)))) (self.new ≡ self.old) }
    {
        let i = self.find_live(number)?;
        self.rows.entry_mut(i).struck = true;
        Ok(())
    }

    /// Gives a statement that has not been struck another weight.
    pub fn reweigh(&mut self, number: u32, weight: u32) -> Result<(), Fault>
        ensures { ByChecks (reweigh_checks self.old.rows.items number weight) result (λ _. (self.new.items ≡ self.old.items) × (self.new.rows.items ≡ slice_set self.old.rows.items (number - 1) (with_weight (numbered self.old.rows.items number) weight))) (self.new ≡ self.old) }
    {
        let at = self.find_live(number)?;
        if !(1..=1000).contains(&weight) {
            return Err(Fault::Weight);
        }
        // The cast keeps the number, which is at most 1,000.
        self.rows.entry_mut(at).weight = weight as u16;
        Ok(())
    }

    /// What a statement says, and whether it has been struck.
    pub fn look(&self, number: u32) -> Result<(Statement, bool), Fault>
        ensures { ByChecks (look_checks self.now.rows.items number) result (λ a. Says a.0 (numbered self.now.rows.items number) × (a.1 ≡ (numbered self.now.rows.items number).struck)) (Unit {0}) }
    {
        let i = self.find(number)?;
        let row = self.rows[i];
        let statement = statement_of(&row).unwrap();
        Ok((statement, row.struck))
    }

    /// Where the statement with a number stands in the list.
    fn find(&self, number: u32) -> Result<usize, Fault>
        ensures { ByChecks (look_checks self.now.rows.items number) result (λ i. (i ≡ number - 1) × (i < length self.now.rows.items)) (Unit {0}) }
    {
        // Casts, as there is no `From` from a `u32` to a `usize`; they keep the number.
        if !(1..=self.rows.len()).contains(&(number as usize)) {
            return Err(Fault::Missing);
        }
        Ok(number as usize - 1)
    }

    /// Where the statement with a number stands in the list, if it has not been struck.
    fn find_live(&self, number: u32) -> Result<usize, Fault>
        ensures { ByChecks (strike_checks self.now.rows.items number) result (λ i. (i ≡ number - 1) × (i < length self.now.rows.items)) (Unit {0}) }
    {
        let i = self.find(number)?;
        if self.rows[i].struck {
            return Err(Fault::Struck);
        }
        Ok(i)
    }
}
