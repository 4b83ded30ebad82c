// The rows of a sheet.
ghost use Rattle.std.specs.Prelude.{◌≡◌, ◌&&◌, if◌then◌else◌, ◌==◌};
ghost use Rattle.points.specs.Scenarios.{entry as entry_of};
ghost use Rattle.rules.specs.Rows.{claim_of, counts, breaks as breaks_of, spot as spot_of};
ghost use Rattle.rules.specs.Properly.{row_proper};

use points::scenario::{entry, place};
use points::set::contains;
use tallies::claim::Claim;
use tallies::tally::Joins;

/// A statement as a sheet keeps it: two items, counted from 0, the lower first; the set of base relations that it allows, as bits; its
/// weight and person; whether it is sworn, and whether it has been struck, two facts that no other field goes with. What a claim has of
/// it stands here one by one, as the weight and the mark are changed alone.
#[derive(Clone, Copy)]
pub struct Row {
    pub low: u8,
    pub high: u8,
    pub set: u64,
    pub weight: u16,
    pub person: u8,
    pub sworn: bool,
    pub struck: bool,
}

impl Row {
    /// Whether the row is one of a sheet with so many items. Entries are tested by the same limits in wider numbers.
    pub fn is_proper(self, items: u8) -> bool
        ensures { result ≡ row_proper items self }
    {
        self.low < self.high
            && self.high < items
            && (1..=1000).contains(&self.weight)
            && (1..=20).contains(&self.person)
    }

    /// Whether the row counts and is broken where its pair has the code.
    pub fn is_broken(self, code: u8) -> bool
        ensures { result ≡ (counts self && breaks_of self code) }
    {
        !self.struck && !contains(self.set, code)
    }

    /// Whether the row counts and is broken by the scenario.
    pub fn is_broken_in(self, scenario: &[u8]) -> bool
        ensures { result ≡ (counts self && breaks_of self (entry_of scenario.now self.low self.high)) }
    {
        self.is_broken(entry(scenario, self.low, self.high))
    }

    /// The same of a row by the person.
    pub fn is_charged_in(self, scenario: &[u8], person: u8) -> bool
        ensures { result ≡ (counts self && (breaks_of self (entry_of scenario.now self.low self.high) && self.person == person)) }
    {
        self.is_broken_in(scenario) && self.person == person
    }

    /// The same of a row on the pair at the place, under a code.
    pub fn is_broken_at(self, spot: usize, code: u8) -> bool
        ensures { result ≡ (counts self && (spot_of self == spot && breaks_of self code)) }
    {
        place(self.low, self.high) == spot && self.is_broken(code)
    }

    /// The cost joined with the penalty of the row, if it is to be added: a sum, and no other form of the row. The flag stays, since with
    /// no row to add the call answers the cost itself, which its callers may rely on.
    pub fn added<J: Joins>(self, cost: J::Cost, adds: bool) -> J::Cost
        ensures { result ≡ (if adds then J.Joins.joining.join cost (J.Joins.joining.penalty (claim_of self)) else cost) }
    {
        if adds {
            J::join(cost, J::penalty(self.into()))
        } else {
            cost
        }
    }
}

/// What a tally may look at of the row.
impl From<Row> for Claim {
    ghost from_gives = { λ r c. c ≡ claim_of r };

    fn from(row: Row) -> Claim {
        Claim {
            set: row.set,
            weight: row.weight,
            person: row.person,
            sworn: row.sworn,
        }
    }
}
