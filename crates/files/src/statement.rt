// A statement's line.
ghost use Rattle.std.specs.Prelude.{◌≡◌, ◌↔◌, Ok};
ghost use Rattle.statements.specs.declared.entry.Entry.{Entry as EntryOf};
ghost use Rattle.files.specs.Statements.{entry_in, mark_in, SaysEntry};
ghost use Rattle.files.specs.Words.{code_of};

use crate::fault::{At, FieldFault, LineFault, placed};
use crate::head::LONGEST;
use crate::number::number;
use crate::parts::Parts;
use crate::words::set_of;
use kinds::kind::Kind;
use kinds::notation::Notation;
use statements::entry::Entry;

// Whether there is a sixth field, which marks a statement as sworn.
fn mark(field: Option<&[u8]>) -> Result<bool, FieldFault>
    ensures { result ≡ mark_in field.entry }
{
    match field {
        None => Ok(false),
        Some([b'!']) => Ok(true),
        Some(_) => Err(FieldFault::NotMark),
    }
}

/// Reads a statement of a kind, before any draft has checked it, or tells its first fault.
pub fn parse_entry<K: Kind + Notation>(line: &[u8]) -> Result<Entry, LineFault>
    ensures entry { result ≡ entry_in (code_of K.Kind.meaning.codes K.Notation.words) line.now }
    ensures says { (e : EntryOf) → (result ≡ Ok e) ↔ SaysEntry (code_of K.Kind.meaning.codes K.Notation.words) line.now e }
{
    if line.len() > LONGEST {
        return Err(LineFault::TooLong);
    }
    let mut fields = Parts::new(line, b' ');
    // `let .. else`, as in a head.
    let (Some(first), Some(second), Some(words), Some(weight), Some(person), sworn, None) = (
        fields.next(),
        fields.next(),
        fields.next(),
        fields.next(),
        fields.next(),
        fields.next(),
        fields.next(),
    ) else {
        return Err(LineFault::FieldCount);
    };
    let first = placed(1, number(first))?;
    let second = placed(2, number(second))?;
    let set = placed(3, set_of::<K>(words))?;
    let weight = placed(4, number(weight))?;
    let person = placed(5, number(person))?;
    let sworn = placed(6, mark(sworn))?;
    Ok(Entry {
        first,
        second,
        set,
        weight,
        person,
        sworn,
    })
}
