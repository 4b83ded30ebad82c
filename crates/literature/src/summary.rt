// All that is printed, and the line on all tables and laws.
ghost use Rattle.std.specs.Prelude.{OnOk};
ghost use Rattle.std.specs.Io.KnownBytes.{Appends};
ghost use Rattle.literature.specs.Literature.{LiteratureComplete};
ghost use Rattle.literature.specs.Output.{kinds_lines, output_lines, Told};
ghost use Rattle.literature.specs.Printed.{summary_line};

use crate::laws::try_laws;
use crate::literature::{Literature, hold_all};
use crate::relations::print_kind;
use crate::score::total;
use dwellings::Dwellings;
use moments::Moments;
use spells::Spells;
use std::io;
use std::io::Write;

/// Prints the tables of the three kinds. A kind is a type, so each has a call of its own.
fn print_kinds<W: Write>(out: &mut W) -> io::Result<()>
    ensures { OnOk result (Appends (W.contents out.old) (W.contents out.new) kinds_lines) }
{
    print_kind::<Moments, W>(out, "moments")?;
    print_kind::<Spells, W>(out, "spells")?;
    print_kind::<Dwellings, W>(out, "dwellings")
}

/// Prints the line on all tables and laws.
fn print_summary<W: Write>(out: &mut W, differ: u32) -> io::Result<()>
    ensures { OnOk result (Appends (W.contents out.old) (W.contents out.new) (summary_line differ)) }
{
    if differ == 0 {
        writeln!(out, "all agree")
    } else {
        writeln!(out, "{differ} differ")
    }
}

/// Prints our tables, holds them against published ones, tries the laws of a relation algebra, and prints whether all agree. The number
/// of figures that are proved comes last. A published table that leaves out a relation, but those that it may leave out, ends it.
pub fn print_all<W: Write>(out: &mut W, literature: Literature, figures: u8) -> anyhow::Result<()>
    ensures complete { OnOk result (LiteratureComplete literature.entry) }
    ensures printed { OnOk result ((told : Told literature.entry) × Appends (W.contents out.old) (W.contents out.new) (output_lines told.held told.points told.intervals told.directions figures)) }
{
    print_kinds(out)?;
    let differ = total(&[
        hold_all(out, literature)?,
        try_laws::<Moments, W>(out)?,
        try_laws::<Spells, W>(out)?,
        try_laws::<Dwellings, W>(out)?,
    ]);
    print_summary(out, differ)?;
    writeln!(out, "figures {figures} proved")?;
    Ok(())
}

#[cfg(test)]
mod tests {
    use super::*;
    use std::test::Fail;

    #[test]
    fn prints_a_difference(rt: HostRuntime) -> Result<(), Fail> {
        let mut out = Vec::new(rt.alloc());
        print_summary(&mut out, 1)?;
        assert_eq!(rt; *out.as_slice(), *b"1 differ\n".as_slice());
        Ok(())
    }
}
