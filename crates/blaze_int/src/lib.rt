//! Integer-like key types. Each key has a rank, a whole number, and the ranks have no gap. A range of keys has a length
//! in keys. The bounds of a range name its least and its greatest key. No function of this crate allocates memory, and
//! each is O(1).
#![tactic(auto)]

mod bounds;
mod chars;
pub mod compare;
mod integer;
mod length;
mod lengths;
mod numbers;
mod signed;
mod uint_plus_one;
mod unsigned;

pub use bounds::{bounds_of, names_a_key};
pub use integer::Integer;
pub use length::{SafeLength, differ, length_in_hand};
pub use uint_plus_one::UIntPlusOne;
