// The head of a sheet.
ghost use Rattle.std.specs.Prelude.{◌≡◌, ◌↔◌, Ok};
ghost use Rattle.std.specs.Cmp.{partial_equiv_from_equiv};
ghost use Rattle.std.specs.Int.{is_in_range};
ghost use Rattle.statements.specs.declared.fault.Fault.TheVariants.{Size};
ghost use Rattle.files.specs.declared.fault.FieldFault.TheVariants.{Unknown as Unfit};
ghost use Rattle.files.specs.Faults.{given};
ghost use Rattle.files.specs.Heads.{head_in, letter, is_kind, is_tally, SaysHead};
ghost use Rattle.files.specs.Letters.{Said, kind_letter, kind_of, same_said, says_same, tally_letter, tally_of};

use crate::fault::{At, FieldFault, LineFault, placed};
use crate::number::number;
use crate::parts::Parts;
use statements::fault::Fault;
use std::marker::Model;

/// The kind that a head names.
#[derive(Clone, Copy, PartialEq, Eq)]
pub enum HeadKind {
    Moments,
    Spells,
    Dwellings,
}

/// The tally that a head names.
#[derive(Clone, Copy, PartialEq, Eq)]
pub enum HeadTally {
    ByWeight,
    SwornFirst,
}

/// What a head says: the kind, the number of items, 1 to 12, and the tally. Contracts see the kind and the tally by their letters.
#[derive(Clone, Copy)]
pub struct Head {
    pub kind: HeadKind,
    pub size: u32,
    pub tally: HeadTally,
}

impl Model for Head {
    ghost use Rattle.std.specs.Prelude.{◌≡◌, true};
    ghost use Rattle.std.specs.Int.{is_in_range};
    ghost use Rattle.files.specs.Letters.{Said, kind_letter, kind_of, tally_letter, tally_of};

    ghost Value = { Said };

    ghost view = { λ h. record { letter = kind_letter h.kind; size = h.size; tally = tally_letter h.tally } };

    ghost invariant = { λ h. is_in_range 1 12 h.size ≡ true };

    ghost inverse = { λ s. record { kind = kind_of s.letter; size = s.size; tally = tally_of s.tally } };
}

/// Two heads are equal that say the same. By hand: a derived `==` would speak of the enums, which contracts do not see.
impl PartialEq for Head {
    ghost eq = { says_same };

    ghost laws = { partial_equiv_from_equiv same_said };

    fn eq(&self, other: &Head) -> bool {
        u8::from(self.kind) == u8::from(other.kind)
            && self.size == other.size
            && u8::from(self.tally) == u8::from(other.tally)
    }
}

impl Eq for Head {
    ghost laws = { same_said };
}

/// The most bytes of a line.
pub const LONGEST: usize = 80;

/// The kind that a field names by its letter.
impl TryFrom<&[u8]> for HeadKind {
    type Error = FieldFault;

    ghost try_from_gives = { λ field r. r ≡ given (is_kind (letter field.now)) (kind_of (letter field.now)) Unfit };

    fn try_from(field: &[u8]) -> Result<HeadKind, FieldFault> {
        match field {
            [b'M'] => Ok(HeadKind::Moments),
            [b'S'] => Ok(HeadKind::Spells),
            [b'D'] => Ok(HeadKind::Dwellings),
            _ => Err(FieldFault::Unknown),
        }
    }
}

/// The tally that a field names by its letter.
impl TryFrom<&[u8]> for HeadTally {
    type Error = FieldFault;

    ghost try_from_gives = { λ field r. r ≡ given (is_tally (letter field.now)) (tally_of (letter field.now)) Unfit };

    fn try_from(field: &[u8]) -> Result<HeadTally, FieldFault> {
        match field {
            [b'w'] => Ok(HeadTally::ByWeight),
            [b'r'] => Ok(HeadTally::SwornFirst),
            _ => Err(FieldFault::Unknown),
        }
    }
}

/// The letter of a kind, as a byte. A `match`, since a discriminant would have to be written as a number.
impl From<HeadKind> for u8 {
    ghost from_gives = { λ kind r. r ≡ kind_letter kind };

    fn from(kind: HeadKind) -> u8 {
        match kind {
            HeadKind::Moments => b'M',
            HeadKind::Spells => b'S',
            HeadKind::Dwellings => b'D',
        }
    }
}

/// The letter of a tally, likewise.
impl From<HeadTally> for u8 {
    ghost from_gives = { λ tally r. r ≡ tally_letter tally };

    fn from(tally: HeadTally) -> u8 {
        match tally {
            HeadTally::ByWeight => b'w',
            HeadTally::SwornFirst => b'r',
        }
    }
}

// A size that drafts accept. `Draft::size` tests it of a draft, and a head has none.
fn checked_size(size: u32) -> Result<u32, Fault>
    ensures { result ≡ given (is_in_range 1 12 size) size Size }
{
    if !(1..=12).contains(&size) {
        return Err(Fault::Size);
    }
    Ok(size)
}

/// Reads a head, or tells its first fault.
pub fn parse_head(line: &[u8]) -> Result<Head, LineFault>
    ensures head { result ≡ head_in line.now }
    ensures says { (h : Said) → (result ≡ Ok h) ↔ SaysHead line.now h }
{
    if line.len() > LONGEST {
        return Err(LineFault::TooLong);
    }
    let mut fields = Parts::new(line, b' ');
    // `let .. else`, as there is no one option for `?`, and a wrong number of fields is a fault of its own.
    let (Some(kind), Some(size), Some(tally), None) = (
        fields.next(),
        fields.next(),
        fields.next(),
        fields.next(),
    ) else {
        return Err(LineFault::FieldCount);
    };
    let kind = placed(1, HeadKind::try_from(kind))?;
    let size = placed(2, number(size))?;
    let tally = placed(3, HeadTally::try_from(tally))?;
    let size = placed(2, checked_size(size))?;
    Ok(Head { kind, size, tally })
}
