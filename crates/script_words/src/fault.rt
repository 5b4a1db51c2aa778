//! Why a line has no answer.
use std::alloc::{AllocError, AllocFailed};

/// Why a line has no answer.
#[derive(Clone, Copy)]
pub enum Fault {
    /// It is no known call, names the wrong thing, or makes a call whose condition does not hold.
    Bad,
    /// An allocation failed.
    Refused,
    /// An allocation of a list of steps failed, after so many of them.
    RefusedAt(usize),
}

impl From<AllocError> for Fault {
    fn from(_refused: AllocError) -> Fault {
        Fault::Refused
    }
}

impl<X: Drop> From<AllocFailed<X>> for Fault {
    fn from(_refused: AllocFailed<X>) -> Fault {
        Fault::Refused
    }
}

/// The value that was read, or `None` if the words are invalid.
pub fn unless_bad<X>(read: Result<X, Fault>) -> Result<Option<X>, Fault> {
    match read {
        Ok(read) => Ok(Some(read)),
        Err(Fault::Bad) => Ok(None),
        Err(fault) => Err(fault),
    }
}
