// A closed sheet, which searches for values that break its statements at least cost.
ghost use Rattle.std.specs.Prelude.{◌≡◌, length, IfOk};
ghost use Rattle.points.specs.Scenarios.{entry as entry_of};
ghost use Rattle.rules.specs.Costs.{charge as charge_of};
ghost use Rattle.rules.specs.Steps.{opening};
ghost use Rattle.rules.specs.Soundness.{rules};
ghost use Rattle.search.specs.Closed.{rows_of, position_of};
ghost use Rattle.statements.specs.Drafts.{ByChecks};
ghost use Rattle.statements.specs.Searches.{search_checks, show_checks, charge_checks};
ghost use Rattle.sheets.specs.Closed.{HasParts, SoundSheet, Searched, Keeps, Shows, Settles};

use crate::held::Draft;
use kinds::kind::Kind;
use search::ledger::Ledger;
use search::sheet::Sheet;
use statements::fault::Fault;
use std::marker::PhantomData;
use tallies::tally::{Joins, Tally};

/// A sheet that takes no statements: a search for values that break those it has at least cost. Clauses name its rules by `rules ..` each
/// time, since no trait has both the kind and the tally.
#[derive(Drop)]
pub struct Closed<K: Kind, T: Tally> {
    pub(crate) sheet: Sheet,
    pub(crate) ledger: Ledger<T::Cost>,
    pub(crate) of: PhantomData<(K, T)>,
    ghost sound: { ∥ SoundSheet K.Kind.meaning (rules K.Kind.meaning K.Kind.fit T.Joins.joining T.Tally.order) sheet ∥₁ },
}

/// What a show answers: the cost of the values, the lower bound of the sheet, and whether the search has finished, which holds of the
/// search and not of the two costs alone.
#[derive(Clone, Copy)]
pub struct Shown<C> {
    pub cost: C,
    pub floor: C,
    pub finished: bool,
}

impl<K: Kind, T: Tally> Draft<K, T> {
    /// Closes the draft: the scenario of all zeros is the incumbent, and the cursor is at the next.
    pub fn close(self) -> Closed<K, T>
        ensures parts { HasParts result.sheet self.items self.rows.items K.Kind.meaning.codes }
        ensures opens { position_of result.sheet ≡ opening self.items }
        ensures sound { SoundSheet K.Kind.meaning (rules K.Kind.meaning K.Kind.fit T.Joins.joining T.Tally.order) result.sheet }
    {
        let Draft {
            items,
            rows,
            ledger,
            of: _,
        } = self;
        Closed {
            sheet: Sheet::closing(items, rows, K::count()).unwrap(),
            ledger,
            of: PhantomData,
        }
    }
}

impl<K: Kind, T: Tally> Closed<K, T> {
    /// Gives the draft back and forgets the search.
    pub fn reopen(self) -> Draft<K, T>
        ensures { (result.items ≡ self.sheet.items) × (result.rows.items ≡ rows_of self.sheet) }
    {
        let Closed {
            sheet,
            ledger,
            of: _,
        } = self;
        let (items, rows) = sheet.reopened();
        Draft {
            items,
            rows,
            ledger,
            of: PhantomData,
        }
    }

    /// The number of items.
    pub fn items(&self) -> u8
        ensures { result ≡ self.now.sheet.items }
    {
        self.sheet.items()
    }

    /// Takes up to so many steps, at most 1,000,000, and fewer only if the search finishes. Answers how many it took.
    pub fn search(&mut self, steps: u32) -> Result<u32, Fault>
        ensures answers { ByChecks (search_checks steps) result (λ t. Searched (rules K.Kind.meaning K.Kind.fit T.Joins.joining T.Tally.order) self.old.sheet self.new.sheet steps t) (self.new ≡ self.old) }
        ensures keeps { IfOk result (λ t. Keeps K.Kind.meaning (rules K.Kind.meaning K.Kind.fit T.Joins.joining T.Tally.order) self.old.sheet self.new.sheet steps t) }
    {
        if steps > 1000000 {
            return Err(Fault::Steps);
        }
        Ok(self.sheet.search::<K, T>(&mut self.ledger, steps))
    }

    /// Writes the values of the incumbent, one for each item, to the front of the page; the rest of the page stays. Refused if the page
    /// is too short, and the page is then as it was.
    pub fn show(&self, page: &mut [K::Value]) -> Result<Shown<T::Cost>, Fault>
        ensures answers { ByChecks (show_checks self.now.sheet.items (length page.old)) result (Shows K.Kind.values (rules K.Kind.meaning K.Kind.fit T.Joins.joining T.Tally.order) self.now.sheet page.old page.new) (page.new ≡ page.old) }
        ensures settles { IfOk result (Settles K.Kind.meaning (rules K.Kind.meaning K.Kind.fit T.Joins.joining T.Tally.order) self.now.sheet page.new) }
    {
        if page.len() < usize::from(self.sheet.items()) {
            return Err(Fault::Short);
        }
        K::write(self.sheet.items(), self.sheet.incumbent(), page);
        Ok(Shown {
            cost: self.sheet.cost::<T>(),
            floor: self.sheet.bound::<T>(),
            finished: self.sheet.finished(),
        })
    }

    /// The charge of a person: the join of the penalties of that person's counting statements that the incumbent breaks.
    pub fn charge(&self, person: u32) -> Result<T::Cost, Fault>
        ensures { ByChecks (charge_checks person) result (λ c. c ≡ charge_of T.Joins.joining (rows_of self.now.sheet) (entry_of (position_of self.now.sheet).incumbent) person) (Unit {0}) }
    {
        if !(1..=20).contains(&person) {
            return Err(Fault::Person);
        }
        // The cast keeps the number, which is at most 20.
        Ok(self.sheet.charge::<T>(person as u8))
    }
}
