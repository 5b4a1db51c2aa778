//! The events of many streams, in order of time.
pub mod multiway_sweep;
pub mod sweep;
pub mod sweep_event;
