// A spell, and the base relations of the interval algebra.
ghost use Rattle.std.specs.Prelude.{◌≡◌, ◌∷◌, ◌++◌, Some};
ghost use Rattle.std.specs.Fmt.{decimal};
ghost use Rattle.spells.specs.Relations.{related};

use std::cmp::Ordering;
use std::fmt;

/// A stretch of time, from its start to its end. It is lawful where the start lies below the end.
#[derive(Clone, Copy)]
pub struct Spell {
    pub start: u32,
    pub end: u32,
}

/// How the first of two spells stands to the second, in the order of the codes.
#[derive(Clone, Copy)]
pub enum Relation {
    Equals,
    Before,
    After,
    Meets,
    MetBy,
    Overlaps,
    OverlappedBy,
    Starts,
    StartedBy,
    During,
    Contains,
    Finishes,
    FinishedBy,
}

/// The relation of the first spell to the second.
pub fn relate(first: Spell, second: Spell) -> Relation
    ensures { result ≡ related first second }
{
    match (first.start.cmp(&second.start), first.end.cmp(&second.end)) {
        (Ordering::Less, Ordering::Less) if first.end < second.start => Relation::Before,
        (Ordering::Less, Ordering::Less) if first.end == second.start => Relation::Meets,
        (Ordering::Less, Ordering::Less) => Relation::Overlaps,
        (Ordering::Greater, Ordering::Greater) if first.start > second.end => Relation::After,
        (Ordering::Greater, Ordering::Greater) if first.start == second.end => Relation::MetBy,
        (Ordering::Greater, Ordering::Greater) => Relation::OverlappedBy,
        (Ordering::Equal, Ordering::Less) => Relation::Starts,
        (Ordering::Equal, Ordering::Greater) => Relation::StartedBy,
        (Ordering::Greater, Ordering::Less) => Relation::During,
        (Ordering::Less, Ordering::Greater) => Relation::Contains,
        (Ordering::Greater, Ordering::Equal) => Relation::Finishes,
        (Ordering::Less, Ordering::Equal) => Relation::FinishedBy,
        (Ordering::Equal, Ordering::Equal) => Relation::Equals,
    }
}

/// The start, a space, the end. Nothing derives it: each type is printed in its own way.
impl fmt::Display for Spell {
    ghost output = { λ s. Some (decimal s.start ++ 32 ∷ decimal s.end) };

    fn fmt<W: fmt::Write>(&self, f: &mut fmt::Formatter<W>) -> fmt::Result {
        let Spell { start, end } = *self;
        write!(f, "{start} {end}")
    }
}
