//! The tally that counts the broken sworn statements first, letter r.

ghost use Rattle.std.specs.Prelude.{◌≡◌, ◌≤◌, ◌∷◌, ◌++◌, Some, length};
ghost use Rattle.std.specs.Fmt.{decimal};
ghost use Rattle.tallies.specs.Joins.{joined, most_penalties};
ghost use Rattle.tallies.specs.Sworn.{sworn_first, sworn_order, plain_sum, PartsAdd};
ghost use Rattle.tallies.specs.SwornLemmas.{monoid_sworn, ranking_sworn};

use crate::claim::Claim;
use crate::cost::joined;
use crate::tally::{Joins, Tally};
use std::fmt;

/// How many sworn statements are broken, and the weight of the other broken statements. Costs are
/// ordered by the first, then by the second.
#[derive(Clone, Copy, PartialEq, Eq, PartialOrd, Ord)]
pub struct SwornCost {
    /// How many sworn statements are broken.
    pub sworn: u32,
    /// The weight of the other broken statements.
    pub weight: u32,
}

/// Sworn statements count first, and the weights of the others decide among equals.
pub struct SwornFirst;

impl Joins for SwornFirst {
    type Cost = SwornCost;

    ghost joining = { sworn_first };

    ghost monoid = { monoid_sworn };

    fn empty() -> SwornCost {
        SwornCost {
            sworn: 0,
            weight: 0,
        }
    }

    fn penalty(claim: Claim) -> SwornCost {
        SwornCost {
            sworn: u32::from(claim.sworn),
            weight: if claim.sworn {
                0
            } else {
                claim.counted_weight()
            },
        }
    }

    fn join(a: SwornCost, b: SwornCost) -> SwornCost {
        SwornCost {
            sworn: a.sworn.saturating_add(b.sworn),
            weight: a.weight.saturating_add(b.weight),
        }
    }
}

impl Tally for SwornFirst {
    ghost order = { sworn_order };

    ghost ranks = { ranking_sworn };

    // One `<=` for each type of cost: given once, in the trait, it would ask `Ord` of all costs.
    fn at_most(a: SwornCost, b: SwornCost) -> bool {
        a <= b
    }
}

/// The cost of the claims, sworn first: for up to 256 claims, how many are sworn and the plain sum
/// of the weights of the others.
pub fn total(claims: &[Claim]) -> SwornCost
    ensures joins { result ≡ joined sworn_first claims.now }
    ensures sums { length claims.now ≤ most_penalties → result ≡ plain_sum claims.now }
    ensures adds_exactly { PartsAdd }
{
    // One such function for each tally: the clauses speak of its own costs.
    joined::<SwornFirst>(claims)
}

/// The number of sworn statements, a slash, the weight of the others. Nothing derives it: each type is printed in its own way.
impl fmt::Display for SwornCost {
    ghost output = { λ c. Some (decimal c.sworn ++ 47 ∷ decimal c.weight) };

    fn fmt<W: fmt::Write>(&self, f: &mut fmt::Formatter<W>) -> fmt::Result {
        let SwornCost { sworn, weight } = *self;
        write!(f, "{sworn}/{weight}")
    }
}
