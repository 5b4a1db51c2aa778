//! The segments of lists and of two streams.
pub mod cursors;
pub mod joins;
pub mod list_segments;
