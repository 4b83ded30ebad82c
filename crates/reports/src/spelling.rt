// How the programs read the heads of files, and what can be read back from a report.
ghost use Rattle.std.specs.Prelude.{◌≡◌, ℕ, true, List};
ghost use Rattle.files.specs.Files.{Own, ReadsWith};
ghost use Rattle.files.specs.Letters.{Said};
ghost use Rattle.files.specs.Views.{Contents, start_of, fits_draft};
ghost use Rattle.files.specs.Words.{spelled};
ghost use Rattle.reports.specs.Lines.{print};
ghost use Rattle.reports.specs.ReadBack.{ReadBack};
ghost use Rattle.reports.specs.Spellings.{spelling_of};

use crate::printed::{ReadKind, ReadTally};
use files::letter::TallyLetter;
use kinds::notation::Notation;
use tallies::tally::{Joins, Tally};

/// Each head of a file is read by the words and letters of its own kind and tally. So a reader that is asked for each head in turn, and
/// loads its sheet by them, meets just the first fault of its file, and loads just the sheets before it.
pub fn heads_read()
    ensures own { Own spelling_of }
    ensures reads { (file : List ℕ) (had : Said → Contents) → ReadsWith spelling_of had file (start_of file) }
{}

/// A head whose letters are those of a draft is read by the words and letters of the draft's kind and tally, as `Reader::load` has them.
pub fn head_read_as<K: ReadKind, T: ReadTally>()
    ensures { (h : Said) → fits_draft (spelled K.Kind.meaning K.Notation.words K.Notation.initial T.TallyLetter.initial) h ≡ true → spelling_of h ≡ spelled K.Kind.meaning K.Notation.words K.Notation.initial T.TallyLetter.initial }
{}

/// Reports of one kind and tally with the same bytes are of the same number, values, cost, lower bound, state and charges,
/// where one of them has numbers and texts as short as a program holds them (`Short`).
pub fn reports_read_back<K: ReadKind, T: ReadTally>()
    ensures { ReadBack (print K.Notation.initial T.TallyLetter.initial K.PrintedKind.value_text T.PrintedTally.cost_text) (λ c. T.Tally.order c T.Joins.joining.empty) }
{}
