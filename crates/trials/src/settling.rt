// Whole files that are settled: all that is printed of them, and whether they fit.
use settlement::file::{settle, settle_file};
use std::alloc::Global;
use std::io;
use std::io::Read;
use std::test::Fail;

/// Settles a file that is in memory, and tells whether it fits and whether just this text is printed.
fn prints(heap: Global, file: &[u8], text: &str) -> Result<(bool, bool), Fail> {
    let mut out = Vec::new(heap);
    let fits = settle(heap, file, &mut out)?;
    Ok((fits, out.as_slice() == text.as_bytes()))
}

#[test]
fn an_empty_file(rt: HostRuntime) -> Result<(), Fail> {
    assert!(rt; prints(rt.alloc(), b"", "")? == (true, true));
    Ok(())
}

// The first two sheets of two moments each, by hand: 1 before 2, and 2 before 1, of weights 3 and 5, of which the first gives way; and a
// statement that stands alone.
const TWO: &[u8] = b"M 2 w\n1 2 < 3 1\n1 2 > 5 2\nM 2 r\n1 2 = 7 4 !\n";

const TWO_REPORTS: &str =
    "sheet 1 M 2 w cost 3 floor 3 final\nitem 1 1\nitem 2 0\nperson 1 charge 3\nsheet 2 M 2 r cost 0/0 floor 0/0 final\nitem 1 0\nitem 2 0\n";

#[test]
fn two_sheets(rt: HostRuntime) -> Result<(), Fail> {
    assert!(rt; prints(rt.alloc(), TWO, TWO_REPORTS)? == (true, true));
    Ok(())
}

/// The sheets before a fault are reported, and the sheet that has it is not.
#[test]
fn a_fault_in_the_second_sheet(rt: HostRuntime) -> Result<(), Fail> {
    let file = b"M 2 w\n1 2 < 3 1\n1 2 > 5 2\nM 2 r\n1 2 = 7 4 !\n1 2 = 7 x\nM 1 w\n";
    let text =
        "sheet 1 M 2 w cost 3 floor 3 final\nitem 1 1\nitem 2 0\nperson 1 charge 3\nfault 14 sheet 2 line 6 field 5\n";
    assert!(rt; prints(rt.alloc(), file, text)? == (false, true));
    Ok(())
}

/// What is printed goes behind what is there, and a file that is one byte too long is refused as a whole.
#[test]
fn a_file_that_is_too_long(rt: HostRuntime) -> Result<(), Fail> {
    let heap = rt.alloc();
    let file = vec![in heap; b'\n'; 65537]?;
    let mut out = Vec::new(heap);
    out.push(b'-')?;
    assert!(rt; !settle_file(heap, file.as_slice(), &mut out)?);
    assert!(rt; out.as_slice() == b"-fault 17 sheet 0 line 0 field 0\n".as_slice());
    assert!(rt;
        prints(heap, file.as_slice(), "fault 17 sheet 0 line 0 field 0\n")? == (false, true)
    );
    Ok(())
}

/// A writer with room for so many bytes.
#[test]
fn a_page_that_is_too_short(rt: HostRuntime) -> Result<(), Fail> {
    let mut page = [0u8; 20];
    assert!(rt; settle_file(rt.alloc(), TWO, &mut io::Cursor::new(&mut page[..])).is_err());
    assert!(rt; page.as_slice() == b"sheet 1 M 2 w cost 3".as_slice());
    Ok(())
}

/// A channel that gives a file in packets of 4,096 bytes, and loses what of a packet does not fit the buffer.
#[derive(Drop)]
struct Packets<'a> {
    left: &'a [u8],
}

impl<'a> Read for Packets<'a> {
    fn read(&mut self, buf: &mut [u8]) -> io::Result<usize> {
        let packet = self.left.len().min(4096);
        let read = packet.min(buf.len());
        buf[..read].copy_from_slice(&self.left[..read]);
        self.left = &self.left[packet..];
        Ok(read)
    }
}

/// No packet is read into less room than it may need: five sheets of 256 equal statements each, which break none.
#[test]
fn a_file_in_packets(rt: HostRuntime) -> Result<(), Fail> {
    let heap = rt.alloc();
    let mut file = Vec::new(heap);
    let mut text = Vec::new(heap);
    for sheet in ["1", "2", "3", "4", "5"] {
        file.extend_from_slice(b"M 2 w\n")?;
        for _statement in 0..256u32 {
            file.extend_from_slice(b"1 2 < 3 1\n")?;
        }
        text.extend_from_slice(b"sheet ")?;
        text.extend_from_slice(sheet.as_bytes())?;
        text.extend_from_slice(b" M 2 w cost 0 floor 0 final\nitem 1 0\nitem 2 1\n")?;
    }
    let mut out = Vec::new(heap);
    let packets = Packets {
        left: file.as_slice(),
    };
    assert!(rt; settle(heap, packets, &mut out)?);
    assert!(rt; out.as_slice() == text.as_slice());
    Ok(())
}
