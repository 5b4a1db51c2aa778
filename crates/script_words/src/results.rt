//! Results, as a script prints them: in Rust's debug form.
use std::alloc::AllocError;
use std::fmt::{Debug, Write};

/// Prints a result.
pub fn print<X: Debug + Drop>(answer: X, reply: &mut String) -> Result<(), AllocError> {
    write!(reply, "{answer:?}")
}

/// Prints the result of a call that may fail to allocate, without its `Ok`.
pub fn print_made<X: Debug + Drop>(
    made: Result<X, AllocError>,
    reply: &mut String,
) -> Result<(), AllocError> {
    print(made?, reply)
}
