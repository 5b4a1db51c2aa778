//! Equality, order and hash.
pub mod entries_left;
pub mod equality;
pub mod hash;
pub mod order;
pub mod turns;
