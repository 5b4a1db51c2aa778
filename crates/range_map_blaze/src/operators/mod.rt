//! The operators of maps.
mod bit_and;
mod bit_or;
mod bit_xor;
pub mod by_keys;
pub mod chosen;
pub mod complements;
pub mod cut;
pub mod exactly_one;
pub mod few;
pub mod set_of;
mod sub;
pub mod union;
