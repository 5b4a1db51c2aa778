//! Programs that read a table from the lines of standard input and print its contents.
#![tactic(auto)]

mod fault;
mod lines;
mod numbers;

pub use fault::Fault;
pub use lines::{Table, content, run};
pub use numbers::{decimal, hexadecimal, length};
