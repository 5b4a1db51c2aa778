//! Answers the lines of a text about a range map, as they come; and does lists of steps on a map.
#![tactic(auto)]

mod answer;
pub mod laws;
mod line;
mod output;
mod request;
mod server;
mod session;
mod split;
mod step;
mod steps;

pub use server::serve;
pub use step::{Answer, Refused, Step};
pub use steps::run;

/// How a session ended.
#[derive(Clone, Copy, Debug, PartialEq, Eq)]
pub enum End {
    /// All lines were answered.
    Done,
    /// A line was invalid. The lines before it were answered, and nothing after it was read.
    BadLine,
    /// An allocation for the answer to a line failed. The lines before it were answered, and a line `out of memory` was written.
    NoMemory,
    /// A read failed, or 2^64 - 1 reads did not reach the end of the text.
    ReadFault,
    /// A write failed, or wrote no byte of a text that is not empty. Not all of the output was written.
    WriteFault,
}
