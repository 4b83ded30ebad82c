// What is asked of a draft.
ghost use Rattle.std.specs.Prelude.{◌≡◌, ◌≤◌, true, IfOk};
ghost use Rattle.rules.specs.Properly.{row_proper};
ghost use Rattle.statements.specs.Drafts.{ByChecks, entry_checks, row_of, Means, entered_as};

use crate::codes::only_codes;
use crate::converses::converses;
use crate::fault::Fault;
use crate::statement::Statement;
use kinds::kind::Kind;
use rules::row::Row;

/// A statement as it is entered: two items, counted from 1, in either order; the set of base relations from the first to the second, as
/// bits; a weight, a person and whether it is sworn, which no other field goes with. Nothing of it has been checked.
#[derive(Clone, Copy)]
pub struct Entry {
    pub first: u32,
    pub second: u32,
    pub set: u64,
    pub weight: u32,
    pub person: u32,
    pub sworn: bool,
}

impl Entry {
    /// The row of the entry on a draft of so many items: given higher item first, the items are exchanged and the set becomes its
    /// converses, so that the row says of values what the entry says. Refused by the first check that fails.
    pub fn row<K: Kind>(&self, items: u8) -> Result<Row, Fault>
        ensures means { IfOk result (Means K.Kind.meaning items self.now) }
        ensures row { ByChecks (entry_checks K.Kind.meaning.codes items self.now) result (λ row. (row ≡ row_of K.Kind.meaning.converse K.Kind.meaning.codes self.now) × (row_proper items row ≡ true)) (Unit {0}) }
    {
        self.check::<K>(u32::from(items))?;
        Ok(self.kept::<K>())
    }

    // Whether the entry may be appended to a draft of so many items. A row is tested by the same limits in numbers of its own width, so
    // that a test for both would widen them.
    fn check<K: Kind>(&self, items: u32) -> Result<(), Fault>
        ensures { ByChecks (entry_checks K.Kind.meaning.codes items self.now) result (λ _. Unit {0}) (Unit {0}) }
    {
        if !(1..=items).contains(&self.first) || !(1..=items).contains(&self.second) {
            return Err(Fault::Item);
        }
        if self.first == self.second {
            return Err(Fault::Same);
        }
        if !only_codes::<K>(self.set) {
            return Err(Fault::Code);
        }
        if !(1..=1000).contains(&self.weight) {
            return Err(Fault::Weight);
        }
        if !(1..=20).contains(&self.person) {
            return Err(Fault::Person);
        }
        Ok(())
    }

    // The row of an entry whose numbers have been checked.
    fn kept<K: Kind>(&self) -> Row
        requires items { ((1 ≤ self.now.first) × (self.now.first ≤ 255)) × ((1 ≤ self.now.second) × (self.now.second ≤ 255)) }
        requires rest { (self.now.weight ≤ 1000) × (self.now.person ≤ 20) }
        ensures { result ≡ row_of K.Kind.meaning.converse K.Kind.meaning.codes self.now }
    {
        let (low, high, set) = if self.first < self.second {
            (self.first, self.second, self.set)
        } else {
            (self.second, self.first, converses::<K>(self.set))
        };
        // Numbers that have been checked, cut to their width: a `TryFrom` would owe what to do where it fails.
        Row {
            low: (low - 1) as u8,
            high: (high - 1) as u8,
            set,
            weight: self.weight as u16,
            person: self.person as u8,
            sworn: self.sworn,
            struck: false,
        }
    }
}

/// The entry that a statement stands for.
impl From<Statement> for Entry {
    ghost from_gives = { λ s e. e ≡ entered_as s };

    fn from(statement: Statement) -> Entry {
        Entry {
            first: u32::from(statement.first),
            second: u32::from(statement.second),
            set: statement.set,
            weight: u32::from(statement.weight),
            person: u32::from(statement.person),
            sworn: statement.sworn,
        }
    }
}
