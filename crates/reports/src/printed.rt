// How values and costs are printed, and what is read of them.
ghost use Rattle.std.specs.Prelude.{◌≡◌, ℕ, ◌<◌, List, ◌∷◌, ◌++◌, length, Some, OnOk, refl};
ghost use Rattle.std.specs.Fmt.{decimal};
ghost use Rattle.files.specs.declared.head.HeadKind.{HeadKind};
ghost use Rattle.files.specs.declared.head.HeadKind.TheVariants.{Moments as OfMoments, Spells as OfSpells, Dwellings as OfDwellings};
ghost use Rattle.files.specs.declared.head.HeadTally.{HeadTally};
ghost use Rattle.files.specs.declared.head.HeadTally.TheVariants.{ByWeight as OfWeight, SwornFirst as OfSworn};
ghost use Rattle.files.specs.Letters.{kind_letter, tally_letter};
ghost use Rattle.files.specs.Parts.{Lacks};
ghost use Rattle.files.specs.Words.{spelled};
ghost use Rattle.reports.specs.Spellings.{spelled_as};
ghost use Rattle.reports.specs.Apart.{decimals_apart, pairs_apart, decimal_lacks, pair_lacks};

use dwellings::{Dwelling, Dwellings};
use files::letter::TallyLetter;
use kinds::kind::Kind;
use kinds::notation::Notation;
use moments::{Moment, Moments};
use spells::Spells;
use spells::spell::Spell;
use std::alloc::{AllocError, Global};
use std::fmt::Display;
use tallies::by_weight::ByWeight;
use tallies::sworn_first::{SwornCost, SwornFirst};
use tallies::tally::Tally;

/// A kind whose values can be printed: the numbers of a value, with a space between.
pub trait PrintedKind: Kind + Notation {
    /// The bytes of a value.
    ghost value_text: { Self.Value → List ℕ };

    /// Appends a value to a text.
    fn write_value(heap: Global, value: Self::Value, text: &mut Vec<u8>) -> Result<(), AllocError>
        ensures { OnOk result (text.new.items ≡ text.old.items ++ value_text value) };
}

/// A tally whose costs can be printed.
pub trait PrintedTally: Tally + TallyLetter {
    /// The bytes of a cost.
    ghost cost_text: { Self.Cost → List ℕ };

    /// Appends a cost to a text.
    fn write_cost(heap: Global, cost: Self::Cost, text: &mut Vec<u8>) -> Result<(), AllocError>
        ensures { OnOk result (text.new.items ≡ text.old.items ++ cost_text cost) };
}

// Appends what `Display` writes of a value. Each kind and tally below calls it in one line: a body in the trait would ask of every value
// and cost that it have a `Display`.
fn push_shown<V: Copy + Display>(
    heap: Global,
    value: V,
    text: &mut Vec<u8>,
) -> Result<(), AllocError>
    ensures { (bytes : List ℕ) → V.output value ≡ Some bytes → OnOk result (text.new.items ≡ text.old.items ++ bytes) }
{
    text.extend_from_slice(format!(in heap; "{value}")?.as_bytes())
}

impl PrintedKind for Moments {
    ghost value_text = { λ v. decimal v.at };

    fn write_value(heap: Global, value: Moment, text: &mut Vec<u8>) -> Result<(), AllocError> {
        push_shown(heap, value, text)
    }
}

impl PrintedKind for Spells {
    ghost value_text = { λ v. decimal v.start ++ 32 ∷ decimal v.end };

    fn write_value(heap: Global, value: Spell, text: &mut Vec<u8>) -> Result<(), AllocError> {
        push_shown(heap, value, text)
    }
}

impl PrintedKind for Dwellings {
    ghost value_text = { λ v. decimal v.east ++ 32 ∷ decimal v.north };

    fn write_value(heap: Global, value: Dwelling, text: &mut Vec<u8>) -> Result<(), AllocError> {
        push_shown(heap, value, text)
    }
}

impl PrintedTally for ByWeight {
    ghost cost_text = { decimal };

    fn write_cost(heap: Global, cost: u32, text: &mut Vec<u8>) -> Result<(), AllocError> {
        push_shown(heap, cost, text)
    }
}

impl PrintedTally for SwornFirst {
    ghost cost_text = { λ c. decimal c.sworn ++ 47 ∷ decimal c.weight };

    fn write_cost(heap: Global, cost: SwornCost, text: &mut Vec<u8>) -> Result<(), AllocError> {
        push_shown(heap, cost, text)
    }
}

/// A kind whose sheets heads name, and whose values can be read back from a report.
pub trait ReadKind: PrintedKind {
    /// Values with the same text are the same. A clause speaks of numbers without end, and a number of more than 64 digits, which no value
    /// holds, is printed as if it had 64: hence texts of less than 64 bytes.
    ghost told_apart: { (u v : Self.Value) → length (Self.PrintedKind.value_text u) < 64 → Self.PrintedKind.value_text u ≡ Self.PrintedKind.value_text v → u ≡ v };

    /// No line feed stands in a text.
    ghost on_one_line: { (v : Self.Value) → Lacks 10 (Self.PrintedKind.value_text v) };

    /// How heads of files name the kind.
    ghost head: { HeadKind };

    /// By the kind's own letter.
    ghost lettered: { kind_letter head ≡ Self.Notation.initial };

    /// Sheets below such heads are read by the kind's own words.
    ghost read_by: { (tally : ℕ) → spelled_as head tally ≡ spelled Self.Kind.meaning Self.Notation.words Self.Notation.initial tally };
}

/// A tally that heads name, and whose costs can be read back from a report.
pub trait ReadTally: PrintedTally {
    /// Costs with the same text are the same, as values are.
    ghost told_apart: { (c d : Self.Cost) → length (Self.PrintedTally.cost_text c) < 64 → Self.PrintedTally.cost_text c ≡ Self.PrintedTally.cost_text d → c ≡ d };

    /// Neither a line feed nor a space stands in a text.
    ghost on_one_line: { (c : Self.Cost) → Lacks 10 (Self.PrintedTally.cost_text c) × Lacks 32 (Self.PrintedTally.cost_text c) };

    /// How heads of files name the tally.
    ghost head: { HeadTally };

    /// By the tally's own letter.
    ghost lettered: { tally_letter head ≡ Self.TallyLetter.initial };
}

impl ReadKind for Moments {
    ghost told_apart = { λ u v short same i. record { at = decimals_apart u.at v.at short same i } };

    ghost on_one_line = { λ v. decimal_lacks 10 refl v.at };

    ghost head = { OfMoments };

    ghost lettered = { refl };

    ghost read_by = { λ tally. refl };
}

impl ReadKind for Spells {
    ghost told_apart = { λ u v short same i. let h = pairs_apart 32 refl u.start u.end v.start v.end short same in record { start = h.0 i; end = h.1 i } };

    ghost on_one_line = { λ v. pair_lacks 10 refl 32 refl v.start v.end };

    ghost head = { OfSpells };

    ghost lettered = { refl };

    ghost read_by = { λ tally. refl };
}

impl ReadKind for Dwellings {
    ghost told_apart = { λ u v short same i. let h = pairs_apart 32 refl u.east u.north v.east v.north short same in record { east = h.0 i; north = h.1 i } };

    ghost on_one_line = { λ v. pair_lacks 10 refl 32 refl v.east v.north };

    ghost head = { OfDwellings };

    ghost lettered = { refl };

    ghost read_by = { λ tally. refl };
}

impl ReadTally for ByWeight {
    ghost told_apart = { decimals_apart };

    ghost on_one_line = { λ c. (decimal_lacks 10 refl c, decimal_lacks 32 refl c) };

    ghost head = { OfWeight };

    ghost lettered = { refl };
}

impl ReadTally for SwornFirst {
    ghost told_apart = { λ c d short same i. let h = pairs_apart 47 refl c.sworn c.weight d.sworn d.weight short same in record { sworn = h.0 i; weight = h.1 i } };

    ghost on_one_line = { λ c. (pair_lacks 10 refl 47 refl c.sworn c.weight, pair_lacks 32 refl 47 refl c.sworn c.weight) };

    ghost head = { OfSworn };

    ghost lettered = { refl };
}
