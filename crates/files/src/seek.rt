// How a reader goes on in its file: to the next statement, or to the next head.
ghost use Rattle.std.specs.Prelude.{◌≡◌};
ghost use Rattle.files.specs.Sheets.{next_head, Moved, stray_fault, GivesStatement, state_of};
ghost use Rattle.files.specs.Views.{ahead_of};

use crate::class::{Class, State, class_of};
use crate::fault::{At, LineFault, Place, SheetFault, placed};
use crate::head::{Head, LONGEST, parse_head};
use crate::reader::Spot;

// The fault of a statement's line before the first head.
fn stray(line: &[u8]) -> LineFault
    ensures { result ≡ stray_fault line.now }
{
    if line.len() > LONGEST {
        LineFault::TooLong
    } else {
        LineFault::NoHead
    }
}

impl<'a> Spot<'a> {
    // Whether a head has come.
    fn state(&self) -> State
        ensures { result ≡ state_of self.now.place }
    {
        if self.place.sheet == 0 {
            State::NoSheet
        } else {
            State::InSheet
        }
    }

    /// The next line, which is then read, if it is a statement's.
    pub fn next_statement(&mut self) -> Option<&'a [u8]>
        ensures { GivesStatement self.old.place (ahead_of self.old) result self.new.place (ahead_of self.new) }
    {
        let mut ahead = self.ahead;
        let line = ahead.next()?;
        match class_of(line) {
            Class::HeadLine => None,
            Class::StatementLine => {
                self.ahead = ahead;
                self.place.line += 1;
                Some(line)
            }
        }
    }

    /// Passes over statements, once a head has come, to the next head. Refused, it stands past the line that the fault is at.
    pub fn find_head(&mut self) -> Result<Option<Head>, SheetFault>
        ensures answer { result ≡ next_head self.old.place (ahead_of self.old) }
        ensures moved { Moved self.old.place (ahead_of self.old) result self.new.place (ahead_of self.new) }
    {
        // No `for`: the place moves on with the lines, and both are the spot's.
        while let Some(line) = self.ahead.next() {
            self.place.line += 1;
            match (self.state(), class_of(line)) {
                (_, Class::HeadLine) => {
                    self.place.sheet += 1;
                    let head = placed(self.place, parse_head(line))?;
                    return Ok(Some(head));
                }
                // Nothing failed here that `?` could pass up: the line itself is the fault.
                (State::NoSheet, Class::StatementLine) => {
                    return Err(SheetFault {
                        place: self.place,
                        fault: stray(line),
                    });
                }
                (State::InSheet, Class::StatementLine) => {}
            }
        }
        Ok(None)
    }
}
