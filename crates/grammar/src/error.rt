ghost use Rattle.std.specs.Prelude.{◌≡◌, Some};
ghost use Rattle.grammar.specs.declared.error.CheckError.TheVariants.{OutOfMemory, Faulty};
ghost use Rattle.grammar.specs.Views.{error_text};

use form::fault::Fault;
use std::alloc::{AllocError, AllocFailed};
use std::error::Error;
use std::fmt;

// Why a check gave no grammar: there was no memory for it, or the file has a fault.
#[derive(Clone, Copy, Debug, PartialEq, Eq)]
pub enum CheckError {
    OutOfMemory,
    Faulty(Fault),
}

// The fault as it is printed, or that memory ran out.
impl fmt::Display for CheckError {
    ghost output = { λ e. Some (error_text e) };

    fn fmt<W: fmt::Write>(&self, f: &mut fmt::Formatter<W>) -> fmt::Result {
        match self {
            CheckError::OutOfMemory => write!(f, "out of memory"),
            CheckError::Faulty(fault) => write!(f, "{fault}"),
        }
    }
}

impl Error for CheckError {}

// What `?` makes of an allocation that failed.
impl From<AllocError> for CheckError {
    ghost from_gives = { λ _ r. r ≡ OutOfMemory };

    fn from(_e: AllocError) -> CheckError {
        CheckError::OutOfMemory
    }
}

// What `?` makes of a value that found no room. One impl for whatever turns into an `AllocError` was tried: it is refused, as in
// conflict with that for `Fault`.
impl<T: Drop> From<AllocFailed<T>> for CheckError {
    ghost from_gives = { λ _ r. r ≡ OutOfMemory };

    fn from(_e: AllocFailed<T>) -> CheckError {
        CheckError::OutOfMemory
    }
}

// What `?` makes of a fault.
impl From<Fault> for CheckError {
    ghost from_gives = { λ f r. r ≡ Faulty f };

    fn from(f: Fault) -> CheckError {
        CheckError::Faulty(f)
    }
}
