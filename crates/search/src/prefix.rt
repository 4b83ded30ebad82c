// The prefixes of the scenario at the cursor, and which of them are refuted.
ghost use Rattle.std.specs.Prelude.{◌≡◌, ◌+◌, ◌<◌, ◌≤◌, false, not, IfSome, unwrap_or, length as length_of, slice_index};
ghost use Rattle.std.specs.List.{list_any, zip};
ghost use Rattle.std.proofs.Props.{props};
ghost use Rattle.points.specs.Scenarios.{pairs as pairs_of, place as place_of};
ghost use Rattle.rules.specs.Orders.{Below};
ghost use Rattle.rules.specs.Steps.{some, unfit, refuted, first_passing};
ghost use Rattle.search.specs.Closed.{rows_of, rules_of};
ghost use Rattle.rules.specs.Costs.{spent_on};
ghost use Rattle.search.specs.Tables.{Spent, Stands, Known};

use crate::table::Tables;
use kinds::kind::Kind;
use points::scenario::pairs;
use tallies::tally::{Joins, Tally};

// The lower and the higher item of the pair at each place. It is static, as a constant of pairs would be built anew at each use.
static SIDES: [(u8, u8); 66] = [
    (0, 1),
    (0, 2),
    (1, 2),
    (0, 3),
    (1, 3),
    (2, 3),
    (0, 4),
    (1, 4),
    (2, 4),
    (3, 4),
    (0, 5),
    (1, 5),
    (2, 5),
    (3, 5),
    (4, 5),
    (0, 6),
    (1, 6),
    (2, 6),
    (3, 6),
    (4, 6),
    (5, 6),
    (0, 7),
    (1, 7),
    (2, 7),
    (3, 7),
    (4, 7),
    (5, 7),
    (6, 7),
    (0, 8),
    (1, 8),
    (2, 8),
    (3, 8),
    (4, 8),
    (5, 8),
    (6, 8),
    (7, 8),
    (0, 9),
    (1, 9),
    (2, 9),
    (3, 9),
    (4, 9),
    (5, 9),
    (6, 9),
    (7, 9),
    (8, 9),
    (0, 10),
    (1, 10),
    (2, 10),
    (3, 10),
    (4, 10),
    (5, 10),
    (6, 10),
    (7, 10),
    (8, 10),
    (9, 10),
    (0, 11),
    (1, 11),
    (2, 11),
    (3, 11),
    (4, 11),
    (5, 11),
    (6, 11),
    (7, 11),
    (8, 11),
    (9, 11),
    (10, 11),
];

// The items of the pair at a place.
fn sides(spot: usize) -> (u8, u8)
    requires { spot < 66 }
    ensures placed { place_of result.0 result.1 ≡ spot }
    ensures rising { result.0 < result.1 }
    ensures few { result.1 < 12 }
{
    SIDES[spot]
}

// Whether one of the triples does not fit whose first pairs have these codes, whose second has the code, and whose third pairs have those.
fn misfits<K: Kind>(firsts: &[u8], second: u8, thirds: &[u8]) -> bool
    ensures { result ≡ list_any (λ p. not (K.Kind.fit p.0 second p.1)) (zip firsts.now thirds.now) }
{
    firsts
        .iter()
        .zip(thirds)
        .any(|(&first, &third)| !K::fits(first, second, third))
}

// The tables of a search with the scenario at its cursor, which has a code for each pair. Clauses name the rules by `rules_of ..` each
// time: no trait has both the kind and the tally, and one made for them would stand in public bounds.
#[derive(Drop)]
pub(crate) struct Prefixes<'a, T: Tally> {
    pub(crate) tables: &'a Tables<'a, T>,
    pub(crate) cursor: &'a [u8],
    ghost long: { length_of cursor.now ≡ pairs_of tables.now.sheet.now.items },
    ghost low: { Below tables.now.sheet.now.codes cursor.now } by { Prim.hlevel props },
}

// Which prefix is meant is a number, its length or its last place, which each of four calls asks to be within the pairs. A struct with the
// length in it is no plainer: `shortest` counts it up, and would make one at each turn.
impl<'a, T: Tally> Prefixes<'a, T> {
    // Whether one of the triples does not fit that the pair at the place closes.
    fn closes_misfit<K: Kind>(&self, spot: usize) -> bool
        requires within { spot < pairs_of self.now.tables.now.sheet.now.items }
        ensures { unfit (rules_of self.now.tables.now.sheet.now K.Kind.fit T.Joins.joining T.Tally.order) self.now.tables.now.sheet.now.items spot self.now.cursor.now ≡ false → unfit (rules_of self.now.tables.now.sheet.now K.Kind.fit T.Joins.joining T.Tally.order) self.now.tables.now.sheet.now.items (spot + 1) self.now.cursor.now ≡ result }
    {
        let (low, high) = sides(spot);
        let count = usize::from(low);
        let (first, third) = (pairs(low), pairs(high));
        misfits::<K>(
            &self.cursor[first..first + count],
            self.cursor[spot],
            &self.cursor[third..third + count],
        )
    }

    // The cost of the prefix of so many codes, from that of the one before it.
    fn prefix_cost(&self, spent: &[T::Cost], length: usize) -> T::Cost
        requires within { length ≤ pairs_of self.now.tables.now.sheet.now.items }
        requires long { length_of spent.now ≡ 67 }
        requires known { Spent T.Joins.joining (rows_of self.now.tables.now.sheet.now) self.now.cursor.now length spent.now }
        ensures { result ≡ spent_on T.Joins.joining (rows_of self.now.tables.now.sheet.now) self.now.cursor.now length }
    {
        if length == 0 {
            return T::empty();
        }
        let last = length - 1;
        let code = usize::from(self.cursor[last]);
        T::join(spent[last], self.tables.prices[last * 64 + code])
    }

    // Whether the prefix of so many codes is refuted, where no shorter one is.
    fn is_refuted<K: Kind>(&self, length: usize, cost: T::Cost, best: T::Cost) -> bool
        requires within { length ≤ pairs_of self.now.tables.now.sheet.now.items }
        requires cost { cost ≡ spent_on T.Joins.joining (rows_of self.now.tables.now.sheet.now) self.now.cursor.now length }
        requires stands { Stands (rules_of self.now.tables.now.sheet.now K.Kind.fit T.Joins.joining T.Tally.order) self.now.tables.now.sheet.now.items (rows_of self.now.tables.now.sheet.now) best self.now.cursor.now length }
        ensures { refuted (rules_of self.now.tables.now.sheet.now K.Kind.fit T.Joins.joining T.Tally.order) self.now.tables.now.sheet.now.items (rows_of self.now.tables.now.sheet.now) best self.now.cursor.now length ≡ result }
    {
        let bound = T::join(cost, self.tables.owed[length]);
        if T::at_most(best, bound) {
            return true;
        }
        if length == 0 {
            return false;
        }
        self.closes_misfit::<K>(length - 1)
    }

    // The length of the shortest refuted prefix, if one is refuted, where none shorter than `from` is. A loop over lengths, no `find`: it
    // notes the cost of each prefix, which those of the next ones need.
    pub(crate) fn shortest<K: Kind>(
        &self,
        spent: &mut [T::Cost],
        from: usize,
        best: T::Cost,
    ) -> Option<usize>
        requires within { from ≤ pairs_of self.now.tables.now.sheet.now.items }
        requires known { Known (rules_of self.now.tables.now.sheet.now K.Kind.fit T.Joins.joining T.Tally.order) self.now.tables.now.sheet.now.items (rows_of self.now.tables.now.sheet.now) best self.now.cursor.now from spent.old }
        ensures is { unwrap_or result (pairs_of self.now.tables.now.sheet.now.items + 1) ≡ first_passing (refuted (rules_of self.now.tables.now.sheet.now K.Kind.fit T.Joins.joining T.Tally.order) self.now.tables.now.sheet.now.items (rows_of self.now.tables.now.sheet.now) best self.now.cursor.now) (pairs_of self.now.tables.now.sheet.now.items + 1) 0 }
        ensures within { IfSome result (λ q. q ≤ pairs_of self.now.tables.now.sheet.now.items) }
        ensures known { Known (rules_of self.now.tables.now.sheet.now K.Kind.fit T.Joins.joining T.Tally.order) self.now.tables.now.sheet.now.items (rows_of self.now.tables.now.sheet.now) best self.now.cursor.now (unwrap_or result (pairs_of self.now.tables.now.sheet.now.items + 1)) spent.new }
    {
        for length in from..=self.cursor.len() {
            let cost = self.prefix_cost(spent, length);
            spent[length] = cost;
            if self.is_refuted::<K>(length, cost, best) {
                return Some(length);
            }
        }
        None
    }
}
