//! Merges of two streams by a choice, and of many streams by rounds of these.
pub mod choice;
pub mod chosen;
pub mod list_of;
pub mod operations;
pub mod piece_list;
pub mod pieces;
pub mod push;
pub mod rounds;
pub mod union;
pub mod with_ranges;
pub mod with_unit;
