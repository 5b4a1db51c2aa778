//! Custom key types.
#![tactic(auto)]

mod addresses;
mod blocks;
mod dates;
mod day;
mod ipv4;
mod ipv6;
mod prefixes;
mod weekday;

pub use blocks::{begins_block, greatest_block, last_of_block};
pub use day::Day;
pub use ipv4::Ipv4;
pub use ipv6::Ipv6;
pub use prefixes::{Address, prefix_range, shortest_prefix, take_prefix};
pub use weekday::Weekday;
