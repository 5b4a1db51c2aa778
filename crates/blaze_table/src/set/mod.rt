//! Sets of keys: a table whose values are `()`.
pub mod compare;
pub mod display;
pub mod into_ranges_iter;
pub mod range_set;
pub mod ranges_iter;
