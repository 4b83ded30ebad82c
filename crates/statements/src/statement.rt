// A statement, which carries in its type what every statement has.
ghost use Rattle.std.specs.Prelude.{◌<◌, ◌≤◌};

/// What a person said of two items: that the base relation from the first to the second is in the set. The items are counted from 1,
/// the lower first. That it is sworn is a fact which no other field goes with.
#[derive(Clone, Copy)]
pub struct Statement {
    pub first: u8,
    pub second: u8,
    /// The base relations as bits.
    pub set: u64,
    pub weight: u16,
    pub person: u8,
    pub sworn: bool,
    ghost ordered: { first < second },
    ghost counted: { 1 ≤ first },
    ghost weighed: { (1 ≤ weight) × (weight ≤ 1000) },
    ghost known: { (1 ≤ person) × (person ≤ 20) },
}
