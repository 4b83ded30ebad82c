// Loads a sheet's statements into a draft.
ghost use Rattle.std.specs.Prelude.{◌≡◌};
ghost use Rattle.files.specs.Drafts.{line_fault, row_in, refusal_field, refused_at, Entered, entry_refusal};
ghost use Rattle.files.specs.Loads.{body, body_fault, rows_in, Loaded};
ghost use Rattle.files.specs.Faults.{answered};
ghost use Rattle.files.specs.Views.{ahead_of};
ghost use Rattle.files.specs.Words.{spelled};
ghost use Rattle.statements.specs.Drafts.{row_of};

use crate::fault::{At, LineFault, Place, SheetFault, placed};
use crate::letter::TallyLetter;
use crate::reader::Spot;
use crate::statement::parse_entry;
use kinds::kind::Kind;
use kinds::notation::Notation;
use sheets::held::Draft;
use statements::entry::Entry;
use statements::fault::Fault;
use tallies::tally::Tally;

// The field that a draft of so many items refuses an entry at: it depends on the entry, so a fault cannot have it.
fn field_of(fault: Fault, entry: &Entry, items: u8) -> u8
    ensures { result ≡ refusal_field items entry.now fault }
{
    match fault {
        Fault::Item if (1..=u32::from(items)).contains(&entry.first) => 2,
        Fault::Item => 1,
        Fault::Size | Fault::Same => 2,
        Fault::Code => 3,
        Fault::Weight => 4,
        Fault::Person => 5,
        _ => 0,
    }
}

// Enters an entry, or tells the field at which the draft refuses it. No trait has both K and T, so the clauses name how the two are
// written part by part, by `spelled`.
fn enter_at<K: Kind + Notation, T: Tally + TallyLetter>(
    draft: &mut Draft<K, T>,
    entry: Entry,
) -> Result<(), At<u8, Fault>>
    ensures answer { result ≡ refused_at (refusal_field draft.old.items entry) (entry_refusal (spelled K.Kind.meaning K.Notation.words K.Notation.initial T.TallyLetter.initial) draft.old.items draft.old.rows.items entry) }
    ensures entered { Entered result (row_of K.Kind.meaning.converse K.Kind.meaning.codes entry) draft.old.items draft.old.rows.items draft.new.items draft.new.rows.items }
{
    let items = draft.items();
    draft.enter(entry).map_err(|fault| At {
        place: field_of(fault, &entry, items),
        fault,
    })?;
    Ok(())
}

// Enters a statement's line.
fn enter_line<K: Kind + Notation, T: Tally + TallyLetter>(
    draft: &mut Draft<K, T>,
    line: &[u8],
) -> Result<(), LineFault>
    ensures answer { result ≡ answered (line_fault (spelled K.Kind.meaning K.Notation.words K.Notation.initial T.TallyLetter.initial) draft.old.items draft.old.rows.items line.now) tt }
    ensures entered { Entered result (row_in (spelled K.Kind.meaning K.Notation.words K.Notation.initial T.TallyLetter.initial) line.now) draft.old.items draft.old.rows.items draft.new.items draft.new.rows.items }
{
    let entry = parse_entry::<K>(line)?;
    enter_at(draft, entry)?;
    Ok(())
}

/// Enters the statements up to the next head. Refused, it stands past the line that the fault is at, and has entered those before it.
pub fn load_body<K: Kind + Notation, T: Tally + TallyLetter>(
    spot: &mut Spot,
    draft: &mut Draft<K, T>,
) -> Result<(), SheetFault>
    ensures answer { result ≡ answered (body_fault (spelled K.Kind.meaning K.Notation.words K.Notation.initial T.TallyLetter.initial) draft.old.items spot.old.place draft.old.rows.items (body (ahead_of spot.old))) tt }
    ensures size { draft.new.items ≡ draft.old.items }
    ensures loaded { Loaded result (rows_in (spelled K.Kind.meaning K.Notation.words K.Notation.initial T.TallyLetter.initial) (body (ahead_of spot.old))) spot.old.place (ahead_of spot.old) draft.old.rows.items spot.new.place (ahead_of spot.new) draft.new.rows.items }
{
    // No `for`: the spot, which gives the lines, has the place of each as well.
    while let Some(line) = spot.next_statement() {
        placed(spot.place, enter_line(draft, line))?;
    }
    Ok(())
}
