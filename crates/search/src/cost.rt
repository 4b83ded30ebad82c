// What the rows of a sheet cost.
ghost use Rattle.std.specs.Prelude.{◌≡◌, ℕ, ◌<◌, ◌≤◌, Bool, List, if◌then◌else◌, filter};
ghost use Rattle.std.specs.Fn.{FnReturnsAt};
ghost use Rattle.points.specs.Scenarios.{entry as entry_of};
ghost use Rattle.tallies.specs.Joins.{joined};
ghost use Rattle.rules.specs.declared.row.Row.{Row};
ghost use Rattle.rules.specs.Costs.{of_rows, cost as cost_of, charge as charge_of, pair_cost, pair_bound, sheet_bound};
ghost use Rattle.search.specs.Closed.{rows_of, incumbent_of};

use crate::sheet::Sheet;
use points::scenario::pairs;
use rules::row::Row;
use tallies::tally::{Joins, Tally};

// The first cost if it is at most the second, else the second. It is no `min`, as a tally has an order of costs, and the type of its
// costs need not have one.
fn lesser<T: Tally>(first: T::Cost, second: T::Cost) -> T::Cost
    ensures { result ≡ (if T.Tally.order first second then first else second) }
{
    if T::at_most(first, second) {
        first
    } else {
        second
    }
}

// The least of what a pair costs under each of so many codes.
pub(crate) fn least<T: Tally, F: Fn(u8) -> T::Cost>(codes: u8, price: F) -> T::Cost
    requires coded { 1 ≤ codes }
    requires callable { (c : ℕ) → c < codes → F.pre price c }
    ensures { (rows : List Row) (spot : ℕ) → ((c : ℕ) (x : _) → c < codes → F.post price c x → x ≡ pair_cost T.Joins.joining rows spot c) → result ≡ pair_bound T.Joins.joining T.Tally.order codes rows spot }
{
    let mut least = price(0);
    for code in 1..codes {
        least = lesser::<T>(price(code), least);
    }
    least
}

impl Sheet {
    // The join of the penalties of the rows that pass a test.
    fn join_where<J: Joins, F: Fn(&Row) -> bool>(&self, test: F) -> J::Cost
        requires { F.IsAlwaysCallable test }
        ensures { (p : Row → Bool) → ((r : Row) (b : Bool) → FnReturnsAt F.Fn test r b → b ≡ p r) → result ≡ joined (of_rows J.Joins.joining) (filter p (rows_of self.now)) }
    {
        let rows = self.rows();
        let mut sum = J::empty();
        for row in rows {
            sum = row.added::<J>(sum, test(row));
        }
        sum
    }

    /// The cost of the incumbent: the join of the penalties of the counting statements that it breaks.
    pub fn cost<J: Joins>(&self) -> J::Cost
        ensures { result ≡ cost_of J.Joins.joining (rows_of self.now) (entry_of (incumbent_of self.now)) }
    {
        let scenario = self.incumbent();
        self.join_where::<J, _>(|row| row.is_broken_in(scenario))
    }

    /// The charge of a person: the same of that person's statements.
    pub fn charge<J: Joins>(&self, person: u8) -> J::Cost
        ensures { result ≡ charge_of J.Joins.joining (rows_of self.now) (entry_of (incumbent_of self.now)) person }
    {
        let scenario = self.incumbent();
        self.join_where::<J, _>(|row| row.is_charged_in(scenario, person))
    }

    // The cost of the pair at the place under a code.
    pub(crate) fn pair_price<J: Joins>(&self, spot: usize, code: u8) -> J::Cost
        ensures { result ≡ pair_cost J.Joins.joining (rows_of self.now) spot code }
    {
        self.join_where::<J, _>(|row| row.is_broken_at(spot, code))
    }

    /// The lower bound of the sheet: the join of the lower bounds of its pairs.
    pub fn bound<T: Tally>(&self) -> T::Cost
        ensures { result ≡ sheet_bound T.Joins.joining T.Tally.order self.now.codes self.now.items (rows_of self.now) }
    {
        let mut sum = T::empty();
        for spot in 0..pairs(self.items) {
            let bound = least::<T, _>(self.codes, |code| self.pair_price::<T>(spot, code));
            sum = T::join(sum, bound);
        }
        sum
    }
}
