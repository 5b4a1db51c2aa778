//! Operations between any number of maps, or of streams.
#![tactic(auto)]

mod borrowed_differences;
mod borrowed_intersections;
mod borrowed_joins;
mod borrowed_maps;
mod borrowed_unions;
pub mod laws;
mod maps;
mod owned_differences;
mod owned_unions;
mod parity;
mod parts;
mod row_answers;
mod rows;
mod sizes;
mod streams;

pub use maps::{MultiwayRangeMapBlaze, MultiwayRangeMapBlazeRef};
pub use streams::MultiwaySortedDisjointMap;
