//! The errors that end a program over a table.
use std::alloc::{AllocError, AllocFailed};
use std::io;

/// An error that ends a program over a table. Its number is the exit status.
#[derive(Clone, Copy)]
pub enum Fault {
    /// Reading or writing failed.
    Io = 1,
    /// A line is invalid.
    Line = 2,
    /// An allocation failed.
    Memory = 3,
}

impl From<AllocError> for Fault {
    fn from(_refused: AllocError) -> Fault {
        Fault::Memory
    }
}

impl<X: Drop> From<AllocFailed<X>> for Fault {
    fn from(_refused: AllocFailed<X>) -> Fault {
        Fault::Memory
    }
}

impl From<io::Error> for Fault {
    fn from(fault: io::Error) -> Fault {
        match fault.kind() {
            io::ErrorKind::OutOfMemory => Fault::Memory,
            _ => Fault::Io,
        }
    }
}
