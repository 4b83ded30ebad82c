//! Joins of the penalties of many claims, under any joining.

ghost use Rattle.std.specs.Prelude.{◌≡◌};
ghost use Rattle.tallies.specs.Groups.{Regroups};
ghost use Rattle.tallies.specs.Joins.{joined, most_penalties};
ghost use Rattle.tallies.specs.Shapes.{Listed, MonoidOfShapes, RankingOfShapes};

use crate::claim::Claim;
use crate::tally::{Joins, Tally};

/// The join of the penalties of the claims.
pub fn joined<T: Joins>(claims: &[Claim]) -> T::Cost
    ensures { result ≡ joined T.Joins.joining claims.now }
{
    let mut cost = T::empty();
    for claim in claims.iter().rev() {
        cost = T::join(T::penalty(*claim), cost);
    }
    cost
}

/// How many penalties the laws of joining hold for: a join of up to so many, of any shape, comes
/// to the join of the list of its penalties; such joins form a commutative monoid; and they can be
/// regrouped by a key.
pub fn joins_up_to<T: Joins>() -> usize
    ensures most { result ≡ most_penalties }
    ensures listed { Listed T.Joins.joining }
    ensures monoid { MonoidOfShapes T.Joins.joining }
    ensures regroups { Regroups T.Joins.joining }
{
    256
}

/// How many penalties on each side the laws of comparing hold for, in joins of any shape.
pub fn ranks_up_to<T: Tally>() -> usize
    ensures most { result ≡ most_penalties }
    ensures ranking { RankingOfShapes T.Joins.joining T.Tally.order }
{
    joins_up_to::<T>()
}
