// The costs and bounds that a search looks up.
ghost use Rattle.std.specs.Prelude.{◌≡◌, ℕ, ◌<◌, ◌≤◌, length, slice_index_or};
ghost use Rattle.points.specs.Scenarios.{pairs as pairs_of};
ghost use Rattle.rules.specs.Costs.{pair_cost};
ghost use Rattle.search.specs.Closed.{rows_of};
ghost use Rattle.search.specs.Tables.{Priced, Owed};

use crate::cost::least;
use crate::sheet::Sheet;
use points::scenario::pairs;
use tallies::tally::Tally;

// A sheet with its two tables: the cost of each pair under each code, with 64 places to a pair, and the joins of the lower bounds of the
// pairs from each place on.
#[derive(Drop)]
pub(crate) struct Tables<'a, T: Tally> {
    pub(crate) sheet: &'a Sheet,
    pub(crate) prices: &'a [T::Cost],
    pub(crate) owed: &'a [T::Cost],
    ghost prices_long: { length prices.now ≡ 4224 },
    ghost owed_long: { length owed.now ≡ 67 },
    ghost priced: { Priced T.Joins.joining sheet.now.codes (rows_of sheet.now) 0 (pairs_of sheet.now.items) prices.now },
    ghost bounded: { Owed T.Joins.joining T.Tally.order sheet.now.codes (rows_of sheet.now) 0 (pairs_of sheet.now.items) owed.now },
}

impl Sheet {
    // Notes the costs of the pair at the place under each code.
    fn price_pair<T: Tally>(&self, spot: usize, prices: &mut [T::Cost])
        requires { self.now.codes ≤ length prices.old }
        ensures { (c : ℕ) → c < self.now.codes → slice_index_or prices.new c T.Joins.joining.empty ≡ pair_cost T.Joins.joining (rows_of self.now) spot c }
    {
        // A loop over the codes. `for (price, code) in prices.iter_mut().zip(0..self.codes)` was tried, and its proof did not close: after
        // a loop that an adapter like `zip` runs, a proof knows the length of a slice that was written by `iter_mut`, and none of its items.
        // With `enumerate` it knows the items, but the place is then a `usize` that has to be narrowed to a code, which is no plainer.
        for code in 0..self.codes {
            prices[usize::from(code)] = self.pair_price::<T>(spot, code);
        }
    }

    // Makes the two tables of the sheet.
    pub(crate) fn fill<T: Tally>(&self, prices: &mut [T::Cost], owed: &mut [T::Cost])
        requires { (length prices.old ≡ 4224) × (length owed.old ≡ 67) }
        ensures priced { Priced T.Joins.joining self.now.codes (rows_of self.now) 0 (pairs_of self.now.items) prices.new }
        ensures bounded { Owed T.Joins.joining T.Tally.order self.now.codes (rows_of self.now) 0 (pairs_of self.now.items) owed.new }
    {
        // A loop over places: each turn reads the bound that the turn before has written, and after a loop that an adapter like `rev` or
        // `zip` runs over `iter_mut`, a proof knows none of the items.
        let count = pairs(self.items);
        owed[count] = T::empty();
        for spot in (0..count).rev() {
            let prices = &mut prices[spot * 64..spot * 64 + 64];
            self.price_pair::<T>(spot, prices);
            let bound = least::<T, _>(self.codes, |code| prices[usize::from(code)]);
            owed[spot] = T::join(bound, owed[spot + 1]);
        }
    }
}
