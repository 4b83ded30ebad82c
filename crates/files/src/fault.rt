// Why a file is refused, and where.
ghost use Rattle.std.specs.Prelude.{◌≡◌};
ghost use Rattle.files.specs.declared.fault.LineFault.TheVariants.{Field, Draft};
ghost use Rattle.files.specs.Faults.{placed_at, fault_number, fault_field};

use statements::fault::Fault;

/// What is wrong with a field.
#[derive(Clone, Copy, PartialEq, Eq)]
pub enum FieldFault {
    /// It is not a number.
    NotNumber,
    /// It has a word that is none of the kind's.
    NotWord,
    /// It is the sixth and not `!`.
    NotMark,
    /// The kind or the tally is unknown, or not the draft's.
    Unknown,
}

/// What is wrong with a line.
#[derive(Clone, Copy, PartialEq, Eq)]
pub enum LineFault {
    /// The line has more than 80 bytes, or the file more than 65,536.
    TooLong,
    /// A statement stands before any head, or no head waits for its statements to be loaded.
    NoHead,
    /// A head has not 3 fields, or a statement not 5 or 6.
    FieldCount,
    /// A field is unfit by itself.
    Field(u8, FieldFault),
    /// A draft refuses what the line says; the field is the one that it is refused for.
    Draft(u8, Fault),
}

impl LineFault {
    /// The number of the fault, 12 to 17; a draft's fault has its own. What is inside a case counts too, so no discriminant can tell it.
    pub fn number(&self) -> u8
        ensures { result ≡ fault_number self.now }
    {
        match *self {
            LineFault::NoHead => 12,
            LineFault::FieldCount => 13,
            LineFault::Field(_, FieldFault::NotNumber) => 14,
            LineFault::Field(_, FieldFault::NotWord | FieldFault::NotMark) => 15,
            LineFault::Field(_, FieldFault::Unknown) => 16,
            LineFault::TooLong => 17,
            LineFault::Draft(_, fault) => fault.number(),
        }
    }

    /// The field that the fault is at, counted from 1; 0 is the line itself, a number and no `Option`, since it is printed.
    pub fn field(&self) -> u8
        ensures { result ≡ fault_field self.now }
    {
        match *self {
            LineFault::NoHead | LineFault::FieldCount | LineFault::TooLong => 0,
            LineFault::Field(field, _) | LineFault::Draft(field, _) => field,
        }
    }
}

/// Where a line stands: in which sheet, 0 before the first head; and its number, counted through the file from 1. Both are 0 for what
/// is at no line: numbers and no `Option`, since they are printed.
#[derive(Clone, Copy, Default, PartialEq, Eq)]
pub struct Place {
    pub sheet: u32,
    pub line: u32,
}

/// A fault with its place: the number of a field, until `?` makes it the fault of the line; or where a line stands.
#[derive(Clone, Copy, PartialEq, Eq)]
pub struct At<P, E> {
    pub place: P,
    pub fault: E,
}

/// Why a file is refused: the fault of a line, and the place of the line.
pub type SheetFault = At<Place, LineFault>;

// A caller asks the fault of a sheet as it asks that of a line, so the two calls stand here too.
impl SheetFault {
    /// The number of the fault.
    pub fn number(&self) -> u8
        ensures { result ≡ fault_number self.now.fault }
    {
        self.fault.number()
    }

    /// The field that the fault is at, counted from 1; 0 is the line itself.
    pub fn field(&self) -> u8
        ensures { result ≡ fault_field self.now.fault }
    {
        self.fault.field()
    }
}

/// The answer, its fault with this place.
pub fn placed<P: Drop, T, E>(place: P, answer: Result<T, E>) -> Result<T, At<P, E>>
    ensures { result ≡ placed_at place answer }
{
    answer.map_err(|fault| At { place, fault })
}

/// The fault of a field, as that of its line. Each of the two errors has an impl, as it becomes a case of its own.
impl From<At<u8, FieldFault>> for LineFault {
    ghost from_gives = { λ e r. r ≡ Field e.place e.fault };

    fn from(e: At<u8, FieldFault>) -> LineFault {
        LineFault::Field(e.place, e.fault)
    }
}

/// The refusal of a draft, as the fault of the line that it refuses.
impl From<At<u8, Fault>> for LineFault {
    ghost from_gives = { λ e r. r ≡ Draft e.place e.fault };

    fn from(e: At<u8, Fault>) -> LineFault {
        LineFault::Draft(e.place, e.fault)
    }
}
