// Why a settling ends before the end of its file.
ghost use Rattle.std.specs.Prelude.{◌≡◌, ◌++◌, Some, None, codes};
ghost use Rattle.std.specs.Fmt.{decimal};
ghost use Rattle.statements.specs.Faults.{number};
ghost use Rattle.settlement.specs.declared.stop.Failure.TheVariants.{Refused, Io};
ghost use Rattle.settlement.specs.declared.stop.Stop.TheVariants.{Unfit, Failed};

use files::fault::SheetFault;
use statements::fault::Fault;
use std::error::Error;
use std::{fmt, io};

/// Why a file can't be settled, whatever it says.
#[derive(Debug, Drop)]
pub enum Failure {
    /// A call is refused; `settle` says by which refusals.
    Refused(Fault),
    /// Reading or printing fails.
    Io(io::Error),
}

/// Why a settling ends before the end of its file.
#[derive(Drop)]
pub(crate) enum Stop {
    /// The file has this fault.
    Unfit(SheetFault),
    /// It can't be settled, whatever the file says.
    Failed(Failure),
}

impl From<SheetFault> for Stop {
    ghost from_gives = { λ fault r. r ≡ Unfit fault };

    fn from(fault: SheetFault) -> Stop {
        Stop::Unfit(fault)
    }
}

impl From<Fault> for Stop {
    ghost from_gives = { λ refusal r. r ≡ Failed (Refused refusal) };

    fn from(refusal: Fault) -> Stop {
        Stop::Failed(Failure::Refused(refusal))
    }
}

impl From<io::Error> for Stop {
    ghost from_gives = { λ error r. r ≡ Failed (Io error) };

    fn from(error: io::Error) -> Stop {
        Stop::Failed(Failure::Io(error))
    }
}

impl From<Fault> for Failure {
    ghost from_gives = { λ refusal r. r ≡ Refused refusal };

    fn from(refusal: Fault) -> Failure {
        Failure::Refused(refusal)
    }
}

impl From<io::Error> for Failure {
    ghost from_gives = { λ error r. r ≡ Io error };

    fn from(error: io::Error) -> Failure {
        Failure::Io(error)
    }
}

/// What is said of the refusal, or of the error.
impl fmt::Display for Failure {
    ghost output = { λ f. elim f [ Refused refusal ↦ Some (codes "refused by " ++ decimal (number refusal)) | Io error ↦ None ] };

    fn fmt<W: fmt::Write>(&self, f: &mut fmt::Formatter<W>) -> fmt::Result {
        match self {
            Failure::Refused(refusal) => write!(f, "{refusal}"),
            Failure::Io(error) => write!(f, "{error}"),
        }
    }
}

impl Error for Failure {}
