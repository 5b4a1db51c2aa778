//! The entries and the keys of tables as streams.
pub mod entry_ends;
pub mod into_range_values;
pub mod key_ranges;
pub mod owned_range_values;
pub mod range_values;
pub mod seeking_range_values;
