//! Lists as streams: checked lists, and computed lists.
pub mod canon;
pub mod canon_map;
pub mod check;
pub mod check_map;
pub mod not_sorted;
pub mod violations;
