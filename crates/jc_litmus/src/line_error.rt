//! Why a line of a program was not read.
ghost use Rattle.std.specs.Prelude.{◌≡◌};
ghost use Rattle.jc_litmus.specs.declared.line_error.LineError.TheVariants as errors;
ghost use Rattle.jc_litmus.specs.declared.program.LineFault.TheVariants as faults;
ghost use Rattle.jc_litmus.specs.LineResults.{error_of};

use crate::program::LineFault;
use jc_text::{Fault, ReadError};
use std::alloc::AllocError;

/// Why a line of a program was not read.
#[derive(Clone, Copy, Debug)]
pub(crate) enum LineError {
    /// An allocation failed.
    Memory,
    /// The line has this fault.
    Fault(LineFault),
}

impl From<AllocError> for LineError {
    ghost from_gives = { λ _ e. e ≡ errors.Memory };

    fn from(_error: AllocError) -> LineError {
        LineError::Memory
    }
}

impl From<LineFault> for LineError {
    ghost from_gives = { λ fault e. e ≡ errors.Fault fault };

    fn from(fault: LineFault) -> LineError {
        LineError::Fault(fault)
    }
}

impl From<Fault> for LineError {
    ghost from_gives = { λ fault e. e ≡ errors.Fault (faults.Script fault) };

    fn from(fault: Fault) -> LineError {
        LineError::Fault(LineFault::Script(fault))
    }
}

impl From<ReadError> for LineError {
    ghost from_gives = { λ error e. e ≡ error_of error };

    fn from(error: ReadError) -> LineError {
        match error {
            ReadError::Memory => LineError::Memory,
            ReadError::Fault(fault) => LineError::Fault(LineFault::Script(fault)),
        }
    }
}
