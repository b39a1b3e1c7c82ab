//! Errors of a script.

use bk_drive::OpenFault;
use std::io;
use thiserror::Error;

/// Why a script is not run. Its text is the line on the error stream.
#[derive(Clone, Copy, Debug, PartialEq, Eq, Error)]
pub enum ScriptFault {
    /// A read failed, or the input exceeds one of its bounds.
    #[error("read fault")]
    Read,
    /// The line with this number, counted from 1, is the first that encodes no step.
    #[error("line {0}: bad command")]
    Bad(u64),
    /// The store was not opened.
    #[error("fault {0}")]
    Open(OpenFault),
    /// Out of memory.
    #[error("fault memory")]
    Memory,
}

/// Why a run of a script writes nothing, or not everything.
#[derive(Debug, Error, Drop)]
pub enum RunFault {
    /// The script is not run, and nothing is written.
    #[error("{0}")]
    Script(ScriptFault),
    /// The answers could not be written.
    #[error("fault output: {0}")]
    Output(io::Error),
}

impl From<ScriptFault> for RunFault {
    ghost use Rattle.std.specs.Prelude.{◌≡◌};
    ghost use Rattle.bk_script.specs.declared.fault.RunFault.TheVariants.{Script};

    ghost from_gives = { λ fault e. e ≡ Script fault };

    fn from(fault: ScriptFault) -> RunFault {
        RunFault::Script(fault)
    }
}

impl From<io::Error> for RunFault {
    ghost use Rattle.std.specs.Prelude.{◌≡◌};
    ghost use Rattle.bk_script.specs.declared.fault.RunFault.TheVariants.{Output};

    ghost from_gives = { λ error e. e ≡ Output error };

    fn from(error: io::Error) -> RunFault {
        RunFault::Output(error)
    }
}
