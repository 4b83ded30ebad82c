//! The tally by weight, letter w.

ghost use Rattle.std.specs.Prelude.{◌≡◌, ◌≤◌, length, sum_by, nat_le};
ghost use Rattle.tallies.specs.Joins.{joined, most_penalties};
ghost use Rattle.tallies.specs.Weights.{by_weight, weight_of, WeightsAdd, WeightsCount};
ghost use Rattle.tallies.specs.Sums.{monoid_by_weight, ranking_by_weight};

use crate::claim::Claim;
use crate::cost::joined;
use crate::tally::{Joins, Tally};

/// A broken statement costs its weight, and weights add.
pub struct ByWeight;

impl Joins for ByWeight {
    type Cost = u32;

    ghost joining = { by_weight };

    ghost monoid = { monoid_by_weight };

    fn empty() -> u32 {
        0
    }

    fn penalty(claim: Claim) -> u32 {
        claim.counted_weight()
    }

    fn join(a: u32, b: u32) -> u32 {
        a.saturating_add(b)
    }
}

impl Tally for ByWeight {
    ghost order = { nat_le };

    ghost ranks = { ranking_by_weight };

    // One `<=` for each type of cost: given once, in the trait, it would ask `Ord` of all costs.
    fn at_most(a: u32, b: u32) -> bool {
        a <= b
    }
}

/// The cost of the claims by weight: for up to 256 claims, the plain sum of their weights.
pub fn total(claims: &[Claim]) -> u32
    ensures joins { result ≡ joined by_weight claims.now }
    ensures sums { length claims.now ≤ most_penalties → result ≡ sum_by weight_of claims.now }
    ensures adds_exactly { WeightsAdd }
    ensures counts { WeightsCount }
{
    // One such function for each tally: the clauses speak of its own costs.
    joined::<ByWeight>(claims)
}
