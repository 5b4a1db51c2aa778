//! The calls of a script's lines that replace a map or a set by a new one.
#![tactic(auto)]

mod from_pairs;
mod joins;
mod makes;
mod operators;
mod sets;
mod try_joins;

pub use from_pairs::FromPairs;
pub use joins::{Join, answer, unless_refused};
pub use makes::Make;
pub use operators::Operation;
pub use sets::MakeSet;
pub use try_joins::TryJoin;
