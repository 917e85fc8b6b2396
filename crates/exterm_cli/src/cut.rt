// Why a call doesn't do all that its words ask for.
ghost use Rattle.std.specs.Prelude.{◌≡◌};
ghost use Rattle.exterm_cli.specs.Parts.{verdict_in};

use crate::report::Verdict;

/// Want of memory, or a fault of the object that is named: the input, standard output, standard error, or
/// the folder.
#[derive(Clone, Copy, Debug, PartialEq, Eq, Drop)]
pub enum Cut {
    Memory,
    Input,
    Output,
    Error,
    File,
}

/// Why a part of a call gives nothing.
#[derive(Drop)]
pub enum Stop {
    /// The words or a file are refused, and this is told.
    Refused(Verdict),
    /// The call is cut short.
    CutShort(Cut),
}

impl Stop {
    /// What is told of a refusal.
    pub fn told(self) -> Result<Verdict, Cut>
        ensures { result ≡ verdict_in self }
    {
        match self {
            Stop::Refused(verdict) => Ok(verdict),
            Stop::CutShort(cut) => Err(cut),
        }
    }
}
