// Refusals.
ghost use Rattle.std.specs.Prelude.{◌≡◌, ◌++◌, Some, codes};
ghost use Rattle.std.specs.Fmt.{decimal};
ghost use Rattle.statements.specs.declared.fault.Fault.TheVariants.{Memory};
ghost use Rattle.statements.specs.Faults.{number as number_of};

use std::alloc::AllocError;
use std::error::Error;
use std::fmt;

/// Why a call is refused. A refused call changes nothing.
#[derive(Clone, Copy, Debug, PartialEq, Eq)]
pub enum Fault {
    /// The size is not 1 to 12.
    Size = 1,
    /// An item is not 1 to the size.
    Item = 2,
    /// Both items are the same.
    Same = 3,
    /// The set has a code beyond the kind's.
    Code = 4,
    /// The weight is not 1 to 1,000.
    Weight = 5,
    /// The person is not 1 to 20.
    Person = 6,
    /// 256 statements have been entered.
    Full = 7,
    /// There is no statement of that number.
    Missing = 8,
    /// The statement has been struck.
    Struck = 9,
    /// The steps are above 1,000,000.
    Steps = 10,
    /// The page is too short.
    Short = 11,
    /// There is no memory for a new draft.
    Memory = 0,
}

impl Fault {
    /// The number of the refusal, 1 to 11; want of memory has 0. It is printed, and is the case's own, which only a cast gives.
    pub fn number(self) -> u8
        ensures { result ≡ number_of self }
    {
        self as u8
    }
}

impl From<AllocError> for Fault {
    ghost from_gives = { λ _ r. r ≡ Memory };

    fn from(_e: AllocError) -> Fault {
        Fault::Memory
    }
}

/// `refused by` and the number.
impl fmt::Display for Fault {
    ghost output = { λ f. Some (codes "refused by " ++ decimal (number_of f)) };

    fn fmt<W: fmt::Write>(&self, f: &mut fmt::Formatter<W>) -> fmt::Result {
        let number = self.number();
        write!(f, "refused by {number}")
    }
}

impl Error for Fault {}
