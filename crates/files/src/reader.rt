// A reader of a file's sheets: what it holds.
ghost use Rattle.std.specs.Prelude.{◌+◌, ◌≤◌, length};
ghost use Rattle.files.specs.Parts.{lines};

use crate::fault::Place;
use crate::head::Head;
use crate::parts::Lines;

/// The lines still to come, and the place of the last one read.
#[derive(Clone, Copy)]
pub struct Spot<'a> {
    pub(crate) ahead: Lines<'a>,
    pub(crate) place: Place,
    ghost room: { (place.line + length (lines ahead.rest.now) ≤ 65536) × (place.sheet ≤ place.line) },
}

/// Reads the sheets of a file: answers the next head, and loads its statements. A head that is answered waits until its statements are
/// loaded or the next head is asked for. No refusal moves the reader: asked again, it gives the same fault.
#[derive(Drop)]
pub struct Reader<'a> {
    // There is none in a file that is too long.
    pub(crate) spot: Option<Spot<'a>>,
    pub(crate) waiting: Option<Head>,
}
