// The report of a settled sheet, line by line.
ghost use Rattle.std.specs.Prelude.{◌≡◌, ℕ, List, ◌++◌, length, IfOk, OnOk};
ghost use Rattle.reports.specs.Lines.{print, costs_part, sheet_line, item_line, person_line, lines_from, report_of, PutsOrWants};

use crate::printed::{PrintedKind, PrintedTally};
use crate::text::put;
use files::letter::TallyLetter;
use kinds::notation::Notation;
use runs::answer::Sight;
use sheets::closed::Shown;
use statements::fault::Fault;
use std::alloc::{AllocError, Global};
use tallies::tally::{Joins, Tally};

/// A sheet to report: its number in the file, what was shown of it, and the charges of the persons 1, 2, and so on.
#[derive(Drop)]
pub struct Report<'a, V, C> {
    pub number: u64,
    pub sight: &'a Sight<V, C>,
    pub charges: &'a [C],
}

// The costs of the first line, and whether the search has finished. Clauses name how a sheet is printed by `print ..` each time, since no
// trait has both the kind and the tally.
fn costs_text<T: PrintedTally>(heap: Global, shown: Shown<T::Cost>) -> Result<Vec<u8>, AllocError>
    ensures { IfOk result (λ v. v.items ≡ costs_part T.PrintedTally.cost_text shown.cost shown.floor shown.finished) }
{
    // In pieces, here and below: a tally's own call writes a cost, and a kind's a value, so that these need no `Display` of their own.
    let state = if shown.finished { "final" } else { "open" };
    let mut text = Vec::new(heap);
    text.extend_from_slice(b" cost ")?;
    T::write_cost(heap, shown.cost, &mut text)?;
    text.extend_from_slice(b" floor ")?;
    T::write_cost(heap, shown.floor, &mut text)?;
    text.extend_from_slice(format!(in heap; " {state}\n")?.as_bytes())?;
    Ok(text)
}

// The first line.
fn sheet_text<K: PrintedKind, T: PrintedTally>(
    heap: Global,
    number: u64,
    sight: &Sight<K::Value, T::Cost>,
) -> Result<Vec<u8>, AllocError>
    ensures { IfOk result (λ v. v.items ≡ sheet_line (print K.Notation.initial T.TallyLetter.initial K.PrintedKind.value_text T.PrintedTally.cost_text) number (length sight.now.values.items) sight.now.shown.cost sight.now.shown.floor sight.now.shown.finished) }
{
    // In pieces, since a letter is any byte and need not be a text of its own.
    let items = sight.values.len();
    let mut text = format!(in heap; "sheet {number} ")?.into_bytes();
    text.push(K::letter())?;
    text.extend_from_slice(format!(in heap; " {items} ")?.as_bytes())?;
    text.push(T::letter())?;
    text.extend_from_slice(costs_text::<T>(heap, sight.shown)?.as_slice())?;
    Ok(text)
}

// The line of an item.
fn item_text<K: PrintedKind, T: PrintedTally>(
    heap: Global,
    item: u64,
    value: K::Value,
) -> Result<Vec<u8>, AllocError>
    ensures { IfOk result (λ v. v.items ≡ item_line (print K.Notation.initial T.TallyLetter.initial K.PrintedKind.value_text T.PrintedTally.cost_text) item value) }
{
    let mut text = format!(in heap; "item {item} ")?.into_bytes();
    K::write_value(heap, value, &mut text)?;
    text.push(b'\n')?;
    Ok(text)
}

// The line of a person, or nothing if the person is charged nothing.
fn person_text<K: PrintedKind, T: PrintedTally>(
    heap: Global,
    person: u64,
    charge: T::Cost,
) -> Result<Vec<u8>, AllocError>
    ensures { IfOk result (λ v. v.items ≡ person_line (print K.Notation.initial T.TallyLetter.initial K.PrintedKind.value_text T.PrintedTally.cost_text) (λ c. T.Tally.order c T.Joins.joining.empty) person charge) }
{
    if T::at_most(charge, T::empty()) {
        return Ok(Vec::new(heap));
    }
    let mut text = format!(in heap; "person {person} charge ")?.into_bytes();
    T::write_cost(heap, charge, &mut text)?;
    text.push(b'\n')?;
    Ok(text)
}

// The lines of the members of a list, of which the first is counted as 1.
fn push_lines<X: Copy, F: Fn(u64, X) -> Result<Vec<u8>, AllocError>>(
    text: &mut Vec<u8>,
    members: &[X],
    line: F,
) -> Result<(), AllocError>
    requires { F.IsAlwaysCallable line }
    ensures { (of : ℕ → X → List ℕ) → ((i : ℕ) (x : X) (r : _) → F.post line i x r → IfOk r (λ v. v.items ≡ of i x)) → OnOk result (text.new.items ≡ text.old.items ++ lines_from of 1 members.now) }
{
    // Counted by `u64`s, as there is no `From` from the `usize` of an `enumerate` to a `u64`.
    for (i, member) in (0u64..).zip(members) {
        text.extend_from_slice(line(i + 1, *member)?.as_slice())?;
    }
    Ok(())
}

// The whole text.
fn report_text<K: PrintedKind, T: PrintedTally>(
    heap: Global,
    report: &Report<K::Value, T::Cost>,
) -> Result<Vec<u8>, AllocError>
    ensures { IfOk result (λ v. v.items ≡ report_of (print K.Notation.initial T.TallyLetter.initial K.PrintedKind.value_text T.PrintedTally.cost_text) (λ c. T.Tally.order c T.Joins.joining.empty) report.now.number report.now.sight.now.values.items report.now.sight.now.shown.cost report.now.sight.now.shown.floor report.now.sight.now.shown.finished report.now.charges.now) }
{
    let values = report.sight.values.as_slice();
    let mut text = sheet_text::<K, T>(heap, report.number, report.sight)?;
    push_lines(
        &mut text,
        values,
        |i, value| item_text::<K, T>(heap, i, value),
    )?;
    push_lines(
        &mut text,
        report.charges,
        |i, charge| person_text::<K, T>(heap, i, charge),
    )?;
    Ok(text)
}

/// Writes the lines of a sheet to the front of the buffer, whose rest stays, and answers how many bytes they are. Refused by `Short` if
/// the buffer is too short, and by `Memory` if there is none to make the text; the buffer is then as it was.
pub fn write_report<K: PrintedKind, T: PrintedTally>(
    heap: Global,
    report: &Report<K::Value, T::Cost>,
    buffer: &mut [u8],
) -> Result<usize, Fault>
    ensures { PutsOrWants (report_of (print K.Notation.initial T.TallyLetter.initial K.PrintedKind.value_text T.PrintedTally.cost_text) (λ c. T.Tally.order c T.Joins.joining.empty) report.now.number report.now.sight.now.values.items report.now.sight.now.shown.cost report.now.sight.now.shown.floor report.now.sight.now.shown.finished report.now.charges.now) buffer.old buffer.new result }
{
    // By the rule for reports the text is put at the front of the caller's buffer; to hand it out would be another public call.
    put(buffer, report_text::<K, T>(heap, report)?.as_slice())
}
