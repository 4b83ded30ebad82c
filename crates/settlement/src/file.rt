// All sheets of a file are settled.
ghost use Rattle.std.specs.Prelude.{◌≡◌, IfErr, IfOk, IfSome, OnOk, is_none, take};
ghost use Rattle.std.specs.Io.KnownBytes.{Appends};
ghost use Rattle.reports.specs.Faults.{fault_line};
ghost use Rattle.settlement.specs.Output.{fault_of, reports_in, output_of, AllReliable};
ghost use Rattle.settlement.specs.Ends.{Ends, EndsReliably, Wants};

use crate::sheet::settle_sheet;
use crate::stop::{Failure, Stop};
use files::calls::LARGEST;
use files::fault::SheetFault;
use files::reader::Reader;
use reports::fault::write_fault;
use std::alloc::Global;
use std::io;
use std::io::{Read, Write};

// At least as many bytes as the line of a fault has, where a number may have 64 digits.
const LONGEST_LINE: usize = 512;

// The most bytes that a packet of a pipe has.
const LEAST_READ: usize = 4096;

// Settles the sheets of a file up to its first fault, and prints the report of each.
fn settle_sheets<W: Write>(heap: Global, file: &[u8], out: &mut W) -> Result<(), Stop>
    ensures printed { Ends result (fault_of file.now) (W.contents out.old) (W.contents out.new) (reports_in file.now) }
    ensures reliable { EndsReliably result file.now }
{
    let mut reader = Reader::new(file);
    let mut number = 0;
    while let Some(head) = reader.next_head()? {
        number += 1;
        settle_sheet(heap, &mut reader, head, number, out)?;
    }
    Ok(())
}

fn print_fault<W: Write>(heap: Global, fault: SheetFault, out: &mut W) -> Result<(), Failure>
    ensures printed { OnOk result (Appends (W.contents out.old) (W.contents out.new) (fault_line fault)) }
    ensures fails { IfErr result Wants }
{
    let mut buffer = [0u8; LONGEST_LINE];
    let length = write_fault(heap, &fault, &mut buffer)?;
    out.write_all(&buffer[..length])?;
    Ok(())
}

/// Settles the sheets of a file up to its first fault, and prints the report of each, and the line of the fault. Answers whether there is
/// no fault. Fails only for want of memory, or if printing fails.
pub fn settle_file<W: Write>(heap: Global, file: &[u8], out: &mut W) -> Result<bool, Failure>
    ensures fits { IfOk result (λ fits. fits ≡ is_none (fault_of file.now)) }
    ensures printed { OnOk result (Appends (W.contents out.old) (W.contents out.new) (output_of file.now)) }
    ensures reliable { OnOk result (AllReliable file.now) }
    ensures fails { IfErr result Wants }
{
    match settle_sheets(heap, file, out) {
        Ok(()) => Ok(true),
        Err(Stop::Unfit(fault)) => {
            print_fault(heap, fault, out)?;
            Ok(false)
        }
        Err(Stop::Failed(failure)) => Err(failure),
    }
}

// All that is read, or one byte more than a file may have, which shows that it is too long.
fn read_file<R: Read + Drop>(heap: Global, input: R) -> io::Result<Vec<u8>>
    ensures { IfSome (R.remaining input) (λ file. IfOk result (λ v. v.items ≡ take 65537 file)) }
{
    // Room for `LEAST_READ` bytes more than are read, so that each read asks for as many: a channel of packets loses what of a packet does
    // not fit the read, and `read_to_end` begins with 512 bytes where there is no room.
    let mut file = Vec::with_capacity(heap, LARGEST + 1 + LEAST_READ)?;
    // A cast, as there is no `From` from a `usize` to a `u64`.
    input.take(LARGEST as u64 + 1).read_to_end(&mut file)?;
    Ok(file)
}

/// Reads a file to its end, or one byte more than a file may have, and settles it as `settle_file` does.
pub fn settle<R: Read + Drop, W: Write>(
    heap: Global,
    input: R,
    out: &mut W,
) -> Result<bool, Failure>
    ensures fits { IfSome (R.remaining input) (λ file. IfOk result (λ fits. fits ≡ is_none (fault_of file))) }
    ensures printed { IfSome (R.remaining input) (λ file. OnOk result (Appends (W.contents out.old) (W.contents out.new) (output_of file))) }
    ensures reliable { IfSome (R.remaining input) (λ file. OnOk result (AllReliable file)) }
    ensures fails { IfErr result Wants }
{
    let file = read_file(heap, input)?;
    settle_file(heap, file.as_slice(), out)
}
