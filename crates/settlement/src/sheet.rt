// One sheet of a file is settled.
ghost use Rattle.reports.specs.Spellings.{spelling_of};
ghost use Rattle.files.specs.Views.{view_of};
ghost use Rattle.files.specs.Words.{spelled};
ghost use Rattle.settlement.specs.Named.{of_kind, of_tally, by_head};
ghost use Rattle.settlement.specs.Ends.{SettlesAs, ShortTexts};

use crate::stop::Stop;
use dwellings::Dwellings;
use files::head::{Head, HeadKind, HeadTally};
use files::letter::TallyLetter;
use files::reader::Reader;
use kinds::kind::Kind;
use kinds::notation::Notation;
use moments::Moments;
use reports::account::account;
use reports::printed::{PrintedKind, PrintedTally};
use sheets::held::Draft;
use spells::Spells;
use std::alloc::Global;
use std::io::Write;
use tallies::by_weight::ByWeight;
use tallies::sworn_first::SwornFirst;
use tallies::tally::{Joins, Tally};

// At least as many bytes as a report has, by its definition alone, where a number may have 64 digits. The longest that is printed has 1,217
// (`the_longest_report` in trials).
const LONGEST_REPORT: usize = 8192;

// Loads and settles the sheet whose head waits, and prints the report.
fn settle_as<K: PrintedKind, T: PrintedTally, W: Write>(
    heap: Global,
    reader: &mut Reader,
    number: u64,
    out: &mut W,
) -> Result<(), Stop>
    requires { ShortTexts K.PrintedKind.value_text × ShortTexts T.PrintedTally.cost_text }
    ensures { SettlesAs (spelled K.Kind.meaning K.Notation.words K.Notation.initial T.TallyLetter.initial)
        (of_kind K.Kind.meaning K.Kind.fit K.Kind.values K.Notation.initial K.PrintedKind.value_text) (of_tally T.Joins.joining T.Tally.order T.TallyLetter.initial T.PrintedTally.cost_text)
        number (view_of reader.old) result (view_of reader.new) (W.contents out.old) (W.contents out.new) }
{
    let mut draft = Draft::<K, T>::new(heap)?;
    reader.load(&mut draft)?;
    // Reports are put at the front of their caller's buffer.
    let mut buffer = [0u8; LONGEST_REPORT];
    let length = account(heap, number, draft, &mut buffer)?;
    out.write_all(&buffer[..length])?;
    Ok(())
}

/// Loads and settles the sheet whose head waits, and prints the report, by the kind and the tally that the head names. These are types, so
/// each pair has a call of its own.
pub(crate) fn settle_sheet<W: Write>(
    heap: Global,
    reader: &mut Reader,
    head: Head,
    number: u64,
    out: &mut W,
) -> Result<(), Stop>
    ensures { by_head head (λ V C k t. SettlesAs (spelling_of head) k t number (view_of reader.old) result (view_of reader.new) (W.contents out.old) (W.contents out.new)) }
{
    match (head.kind, head.tally) {
        (HeadKind::Moments, HeadTally::ByWeight) => {
            settle_as::<Moments, ByWeight, W>(heap, reader, number, out)
        }
        (HeadKind::Moments, HeadTally::SwornFirst) => {
            settle_as::<Moments, SwornFirst, W>(heap, reader, number, out)
        }
        (HeadKind::Spells, HeadTally::ByWeight) => {
            settle_as::<Spells, ByWeight, W>(heap, reader, number, out)
        }
        (HeadKind::Spells, HeadTally::SwornFirst) => {
            settle_as::<Spells, SwornFirst, W>(heap, reader, number, out)
        }
        (HeadKind::Dwellings, HeadTally::ByWeight) => {
            settle_as::<Dwellings, ByWeight, W>(heap, reader, number, out)
        }
        (HeadKind::Dwellings, HeadTally::SwornFirst) => {
            settle_as::<Dwellings, SwornFirst, W>(heap, reader, number, out)
        }
    }
}
