//! What a tally may look at of a statement.

ghost use Rattle.std.specs.Prelude.{◌≡◌};
ghost use Rattle.tallies.specs.Weights.{weighed};

/// A statement without its items: a tally cannot look at them.
#[derive(Clone, Copy)]
pub struct Claim {
    /// The base relations that the statement allows, as bits.
    pub set: u64,
    /// The weight, from 1 to 1,000.
    pub weight: u16,
    /// The person who made the statement.
    pub person: u8,
    /// Whether the statement is sworn: a fact of its own, which no other field goes with.
    pub sworn: bool,
}

impl Claim {
    /// The weight as it counts: a number outside 1 to 1,000 counts as the nearest of these.
    pub fn counted_weight(self) -> u32
        ensures { result ≡ weighed self.weight }
    {
        u32::from(self.weight.clamp(1, 1000))
    }
}
