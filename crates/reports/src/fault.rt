// The line of a fault.
ghost use Rattle.std.specs.Prelude.{◌≡◌, IfOk, string_bytes};
ghost use Rattle.reports.specs.Lines.{PutsOrWants};
ghost use Rattle.reports.specs.Faults.{fault_line};

use crate::text::put;
use files::fault::{Place, SheetFault};
use statements::fault::Fault;
use std::alloc::{AllocError, Global};

// The text of the line.
fn fault_text(heap: Global, fault: &SheetFault) -> Result<String, AllocError>
    ensures { IfOk result (λ s. string_bytes s ≡ fault_line fault.now) }
{
    let number = fault.number();
    let field = fault.field();
    let Place { sheet, line } = fault.place;
    format!(in heap; "fault {number} sheet {sheet} line {line} field {field}\n")
}

/// Writes the line of a fault to the front of the buffer, whose rest stays, and answers how many bytes it is. Refused by `Short` if the
/// buffer is too short, and by `Memory` if there is none to make the text; the buffer is then as it was.
pub fn write_fault(heap: Global, fault: &SheetFault, buffer: &mut [u8]) -> Result<usize, Fault>
    ensures { PutsOrWants (fault_line fault.now) buffer.old buffer.new result }
{
    // By the rule for reports the text is put at the front of the caller's buffer, as a report is: one line each, of another text.
    put(buffer, fault_text(heap, fault)?.as_bytes())
}
