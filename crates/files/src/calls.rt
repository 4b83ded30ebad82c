// The calls of a reader.
ghost use Rattle.std.specs.Prelude.{◌≡◌, ℕ, List, true, []};
ghost use Rattle.std.specs.Int.{is_in_range};
ghost use Rattle.files.specs.Faults.{answered};
ghost use Rattle.files.specs.Files.{ReadsFile};
ghost use Rattle.files.specs.Sheets.{nowhere as nowhere_with};
ghost use Rattle.files.specs.Standing.{Stands};
ghost use Rattle.files.specs.Views.{view_of, start_of, head_answer, head_after, load_fault, load_after, contents, load_contents};
ghost use Rattle.files.specs.Words.{spelled};

use crate::fault::{FieldFault, LineFault, Place, SheetFault};
use crate::head::Head;
use crate::letter::TallyLetter;
use crate::load::load_body;
use crate::parts::Lines;
use crate::reader::{Reader, Spot};
use kinds::kind::Kind;
use kinds::notation::Notation;
use sheets::held::Draft;
use tallies::tally::Tally;

// The most bytes of a file.
pub const LARGEST: usize = 65536;

// A fault that is at no line.
fn nowhere(fault: LineFault) -> SheetFault
    ensures { result ≡ nowhere_with fault }
{
    SheetFault {
        place: Place::default(),
        fault,
    }
}

impl<'a> Reader<'a> {
    /// A reader before the first line of a file. One that is too long is refused by each call.
    pub fn new(file: &'a [u8]) -> Reader<'a>
        ensures view { view_of result ≡ start_of file.now }
        ensures stands { Stands file.now (view_of result) }
        ensures reads { ReadsFile file.now (view_of result) }
    {
        let spot = if file.len() > LARGEST {
            None
        } else {
            Some(Spot {
                ahead: Lines::new(file),
                place: Place::default(),
            })
        };
        Reader {
            spot,
            waiting: None,
        }
    }

    /// The next head, which then waits, or that there is none. Statements that have not been loaded are passed over, unchecked.
    pub fn next_head(&mut self) -> Result<Option<Head>, SheetFault>
        ensures answer { result ≡ head_answer (view_of self.old) }
        ensures after { view_of self.new ≡ head_after (view_of self.old) }
        ensures stands { (file : List ℕ) → Stands file (view_of self.old) → Stands file (view_of self.new) }
    {
        let mut spot = self.spot.ok_or(nowhere(LineFault::TooLong))?;
        self.waiting = spot.find_head()?;
        self.spot = Some(spot);
        Ok(self.waiting)
    }

    /// Loads the statements of the head that waits into a draft, which takes the head's size first. A refused load leaves the head
    /// waiting, and the draft with an empty list; where no head of the draft's kind and tally waits, the draft is as it was. Clauses name
    /// how the two are written part by part, by `spelled`, since no trait has both.
    pub fn load<K: Kind + Notation, T: Tally + TallyLetter>(
        &mut self,
        draft: &mut Draft<K, T>,
    ) -> Result<(), SheetFault>
        ensures answer { result ≡ answered (load_fault (spelled K.Kind.meaning K.Notation.words K.Notation.initial T.TallyLetter.initial) (view_of self.old)) tt }
        ensures after { view_of self.new ≡ load_after (spelled K.Kind.meaning K.Notation.words K.Notation.initial T.TallyLetter.initial) (view_of self.old) }
        ensures stands { (file : List ℕ) → Stands file (view_of self.old) → Stands file (view_of self.new) }
        ensures draft { contents draft.new.items draft.new.rows.items ≡ load_contents (spelled K.Kind.meaning K.Notation.words K.Notation.initial T.TallyLetter.initial) (view_of self.old) (contents draft.old.items draft.old.rows.items) }
    {
        let mut spot = self.spot.ok_or(nowhere(LineFault::TooLong))?;
        let head = self.waiting.ok_or(nowhere(LineFault::NoHead))?;
        if u8::from(head.kind) != K::letter() || u8::from(head.tally) != T::letter() {
            return Err(nowhere(LineFault::Field(0, FieldFault::Unknown)));
        }
        resize(draft, head.size);
        // The fault is taken out by hand: `inspect_err(|_| clear(draft))?` was tried, and its proof did not close, as little is known of a
        // draft after a closure that may change it.
        if let Err(fault) = load_body(&mut spot, draft) {
            clear(draft);
            return Err(fault);
        }
        self.spot = Some(spot);
        self.waiting = None;
        Ok(())
    }
}

// Sets a size that the draft accepts, and empties its list.
fn resize<K: Kind, T: Tally>(draft: &mut Draft<K, T>, size: u32)
    requires { is_in_range 1 12 size ≡ true }
    ensures size { draft.new.items ≡ size }
    ensures rows { draft.new.rows.items ≡ [] }
{
    draft.size(size).unwrap();
}

// Empties the list of a draft, which keeps its size.
fn clear<K: Kind, T: Tally>(draft: &mut Draft<K, T>)
    ensures size { draft.new.items ≡ draft.old.items }
    ensures rows { draft.new.rows.items ≡ [] }
{
    let size = u32::from(draft.items());
    resize(draft, size);
}
