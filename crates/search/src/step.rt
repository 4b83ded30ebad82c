// The steps of a search.
ghost use Rattle.std.specs.Prelude.{◌≡◌, ◌^◌, IfSome, IfNone, length};
ghost use Rattle.points.specs.Scenarios.{pairs as pairs_of};
ghost use Rattle.rules.specs.Orders.{Below, index};
ghost use Rattle.rules.specs.Steps.{position, step as step_of, advance as advance_of, taken as taken_of};
ghost use Rattle.search.specs.Closed.{rows_of, position_of, rules_of};
ghost use Rattle.search.specs.Tables.{Keeps};

use crate::cursor::rise;
use crate::ledger::Ledger;
use crate::prefix::Prefixes;
use crate::sheet::Sheet;
use crate::table::Tables;
use kinds::kind::Kind;
use points::scenario::pairs;
use tallies::tally::{Joins, Tally};

// What a search keeps between two steps: the cost of the incumbent, how long the prefixes at the cursor are that are known not to be
// refuted, and the place from which on its codes are 0.
#[derive(Clone, Copy)]
pub(crate) struct Kept<C> {
    pub(crate) best: C,
    pub(crate) stands: usize,
    pub(crate) filled: usize,
}

impl<'a, T: Tally> Tables<'a, T> {
    // One step: what is kept for the next one, or none once the cursor has passed the last scenario. Clauses name the rules by `rules_of ..`,
    // as at `Prefixes`.
    fn step<K: Kind>(
        &self,
        incumbent: &mut [u8],
        cursor: &mut [u8],
        spent: &mut [T::Cost],
        kept: Kept<T::Cost>,
    ) -> Option<Kept<T::Cost>>
        requires long { (length incumbent.old ≡ pairs_of self.now.sheet.now.items) × (length cursor.old ≡ pairs_of self.now.sheet.now.items) }
        requires below { Below self.now.sheet.now.codes incumbent.old × Below self.now.sheet.now.codes cursor.old }
        requires keeps { Keeps (rules_of self.now.sheet.now K.Kind.fit T.Joins.joining T.Tally.order) self.now.sheet.now.items (rows_of self.now.sheet.now) incumbent.old cursor.old kept spent.old }
        ensures goes_on { IfSome result (λ _. position incumbent.new (index self.now.sheet.now.codes cursor.new) ≡ step_of (rules_of self.now.sheet.now K.Kind.fit T.Joins.joining T.Tally.order) self.now.sheet.now.items (rows_of self.now.sheet.now) (position incumbent.old (index self.now.sheet.now.codes cursor.old))) }
        ensures ends { IfNone result (position incumbent.new (self.now.sheet.now.codes ^ pairs_of self.now.sheet.now.items) ≡ step_of (rules_of self.now.sheet.now K.Kind.fit T.Joins.joining T.Tally.order) self.now.sheet.now.items (rows_of self.now.sheet.now) (position incumbent.old (index self.now.sheet.now.codes cursor.old))) }
        ensures below { Below self.now.sheet.now.codes incumbent.new × Below self.now.sheet.now.codes cursor.new }
        ensures keeps { IfSome result (λ k. Keeps (rules_of self.now.sheet.now K.Kind.fit T.Joins.joining T.Tally.order) self.now.sheet.now.items (rows_of self.now.sheet.now) incumbent.new cursor.new k spent.new) }
    {
        let codes = self.sheet.codes;
        let prefixes = Prefixes::<T> {
            tables: self,
            cursor,
        };
        match prefixes.shortest::<K>(spent, kept.stands, kept.best) {
            Some(length) => {
                let risen = rise(cursor, codes, length, kept.filled)?;
                Some(Kept {
                    best: kept.best,
                    stands: risen,
                    filled: risen,
                })
            }
            None => {
                incumbent.copy_from_slice(cursor);
                let count = cursor.len();
                let filled = rise(cursor, codes, count, kept.filled)?;
                Some(Kept {
                    best: spent[count],
                    stands: 0,
                    filled,
                })
            }
        }
    }
}

impl Sheet {
    // The steps of a search, by tables of the lengths that it needs: the costs of the pairs and the bounds are filled in first. The tables
    // are passed one by one, since no loop can run while parts of a ledger, whose type says how long they are, are lent.
    fn advance<K: Kind, T: Tally>(
        &mut self,
        prices: &mut [T::Cost],
        owed: &mut [T::Cost],
        spent: &mut [T::Cost],
        steps: u32,
    ) -> u32
        requires { (length prices.old ≡ 4224) × ((length owed.old ≡ 67) × (length spent.old ≡ 67)) }
        ensures advanced { position_of self.new ≡ advance_of (rules_of self.old K.Kind.fit T.Joins.joining T.Tally.order) self.old.items (rows_of self.old) steps (position_of self.old) }
        ensures taken { result ≡ taken_of (rules_of self.old K.Kind.fit T.Joins.joining T.Tally.order) self.old.items (rows_of self.old) steps (position_of self.old) }
        ensures parts { (self.new.items ≡ self.old.items) × (self.new.rows ≡ self.old.rows) × (self.new.codes ≡ self.old.codes) }
    {
        // The arrays are copied out here and back at the end, since the tables borrow the sheet while the search runs. `let .. else`, as the
        // call ends here with 0 and not with none.
        let Some(mut cursor) = self.cursor else {
            return 0;
        };
        let mut incumbent = self.incumbent;
        let count = pairs(self.items);
        let mut kept = Kept {
            best: self.cost::<T>(),
            stands: 0,
            filled: count,
        };
        self.fill::<T>(prices, owed);
        let tables = Tables::<T> {
            sheet: self,
            prices,
            owed,
        };
        for taken in 0..steps {
            match tables.step::<K>(&mut incumbent[0..count], &mut cursor[0..count], spent, kept) {
                Some(next) => kept = next,
                None => {
                    self.incumbent = incumbent;
                    self.cursor = None;
                    return taken + 1;
                }
            }
        }
        self.incumbent = incumbent;
        self.cursor = Some(cursor);
        steps
    }

    /// Searches on: up to so many steps, and fewer only if the search finishes. Answers how many steps were taken.
    pub fn search<K: Kind, T: Tally>(&mut self, ledger: &mut Ledger<T::Cost>, steps: u32) -> u32
        ensures advanced { position_of self.new ≡ advance_of (rules_of self.old K.Kind.fit T.Joins.joining T.Tally.order) self.old.items (rows_of self.old) steps (position_of self.old) }
        ensures taken { result ≡ taken_of (rules_of self.old K.Kind.fit T.Joins.joining T.Tally.order) self.old.items (rows_of self.old) steps (position_of self.old) }
        ensures parts { (self.new.items ≡ self.old.items) × (self.new.rows ≡ self.old.rows) × (self.new.codes ≡ self.old.codes) }
    {
        self.advance::<K, T>(
            ledger.prices.as_mut_slice(),
            ledger.owed.as_mut_slice(),
            ledger.spent.as_mut_slice(),
            steps,
        )
    }
}
