// The figures that a clerk can recount by hand.
#![tactic(auto)]

ghost use Rattle.std.specs.Prelude.{◌≡◌, length};
ghost use Rattle.figures.specs.Figures.{Words, Figures, table};

/// How many lines the table of figures has: eight compositions, two spells that meet, and three small sheets that are searched to
/// their end. That each of them holds is proved from the definitions; and so is, for each word of a base relation, an example of two
/// values.
pub fn count() -> u8
    ensures hold { Figures }
    ensures words { Words }
    ensures lines { result ≡ length table }
{
    12
}
