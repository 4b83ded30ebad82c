// The theorems on the search, for any kind and any tally.
ghost use Rattle.std.specs.Prelude.{◌≡◌, ℕ};
ghost use Rattle.rules.specs.Orders.{InOrder, Numbers, Skips};
ghost use Rattle.rules.specs.Soundness.{SearchSound, InParts, BoundBelow, BoundLeast, PrefixesLeast, Unfits, PairsJoin, ChargesJoin, rules};

use kinds::kind::Kind;
use tallies::tally::{Joins, Tally};

/// How many persons there are whose charges join to the cost of a scenario. So do the costs of its pairs. The numbers of scenarios are
/// all those below the number of scenarios and keep their dictionary order, and a step passes over just those that share the refuted
/// prefix. The search is sound: the incumbent is the first best of the scenarios before the cursor; and it may be carried out in parts.
/// The lower bound of a pair is the least of its costs, and that of a prefix the least cost of the scenarios that begin with it; that of a
/// sheet is that of the empty prefix, and at most the cost of each assignment. A prefix is unfit exactly if it holds a triple that does not
/// fit.
pub fn sound<K: Kind, T: Tally>() -> u8
    ensures persons { result ≡ 20 }
    ensures search { SearchSound K.Kind.meaning (rules K.Kind.meaning K.Kind.fit T.Joins.joining T.Tally.order) }
    ensures parts { InParts (rules K.Kind.meaning K.Kind.fit T.Joins.joining T.Tally.order) }
    ensures least { BoundLeast (rules K.Kind.meaning K.Kind.fit T.Joins.joining T.Tally.order) }
    ensures prefixes { PrefixesLeast (rules K.Kind.meaning K.Kind.fit T.Joins.joining T.Tally.order) }
    ensures triples { Unfits (rules K.Kind.meaning K.Kind.fit T.Joins.joining T.Tally.order) }
    ensures bound { BoundBelow K.Kind.meaning (rules K.Kind.meaning K.Kind.fit T.Joins.joining T.Tally.order) }
    ensures pairs { PairsJoin T.Joins.joining }
    ensures charges { ChargesJoin T.Joins.joining }
    ensures order { (b : ℕ) → InOrder b }
    ensures numbers { (b : ℕ) → Numbers b }
    ensures skips { (b : ℕ) → Skips b }
{
    20
}

/// What holds of all that joins, ranked or not: the costs of the pairs join to the cost of a scenario, and so do the charges of the
/// persons 1 to 20.
pub fn charges<J: Joins>()
    ensures pairs { PairsJoin J.Joins.joining }
    ensures charges { ChargesJoin J.Joins.joining }
{}
