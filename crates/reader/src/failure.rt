// Why an input is not read and printed to its end.
ghost use Rattle.std.specs.Prelude.{◌≡◌};
ghost use Rattle.reader.specs.declared.failure.RunError.TheVariants.{OutOfMemory};

use std::alloc::AllocError;
use std::error::Error;
use std::{fmt, io};

#[derive(Debug, Drop)]
pub enum RunError {
    // at the start: nothing has been read, and nothing written
    OutOfMemory,
    // the input cannot be read on
    Input(io::Error),
    // the output cannot be written
    Output(io::Error),
}

impl fmt::Display for RunError {
    fn fmt<W: fmt::Write>(&self, f: &mut fmt::Formatter<W>) -> fmt::Result {
        match self {
            RunError::OutOfMemory => write!(f, "out of memory"),
            RunError::Input(error) => write!(f, "the input cannot be read: {error}"),
            RunError::Output(error) => write!(f, "the output cannot be written: {error}"),
        }
    }
}

impl Error for RunError {}

impl From<AllocError> for RunError {
    ghost from_gives = { λ _ error. error ≡ OutOfMemory };

    fn from(_error: AllocError) -> RunError {
        RunError::OutOfMemory
    }
}
