//! What joins penalties, and what compares costs.

ghost use Rattle.std.specs.Prelude.{◌≡◌, Bool};
ghost use Rattle.tallies.specs.Joins.{Joining, Monoid, Ranking};
ghost use Rattle.tallies.specs.declared.claim.Claim.{Claim};

use crate::claim::Claim;

/// Penalties that join to costs. Nothing here compares costs: what joins need not be ranked.
pub trait Joins {
    /// What broken statements cost.
    type Cost: Copy;

    // The empty cost, the penalty of each claim, and the join, as the calls below answer them.
    ghost joining: { Joining Claim Self.Cost };

    /// The cost where nothing is broken.
    fn empty() -> Self::Cost
        ensures { result ≡ joining.empty };

    /// What one broken statement costs.
    fn penalty(claim: Claim) -> Self::Cost
        ensures { result ≡ joining.penalty claim };

    /// What two costs come to together.
    fn join(a: Self::Cost, b: Self::Cost) -> Self::Cost
        ensures { result ≡ joining.join a b };

    // Joining is a commutative monoid, for joins of up to 256 penalties.
    ghost monoid: { Monoid joining };
}

/// A tally: penalties that join to costs, and an order of the costs.
pub trait Tally: Joins {
    // Whether a cost is at most another.
    ghost order: { Self.Cost → Self.Cost → Bool };

    /// Whether the cost a is at most the cost b. The order is the tally's own, and no `Ord` of the costs.
    fn at_most(a: Self::Cost, b: Self::Cost) -> bool
        ensures { result ≡ order a b };

    // The order is total and without ties, joining keeps it, and each penalty is above the empty
    // cost, for costs of up to 256 penalties.
    ghost ranks: { Ranking Self.Joins.joining order };
}
