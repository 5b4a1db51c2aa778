//! The range map for C: keys `i64`, values `u64`. Each function calls one of the map and repeats its contract. A lookup takes
//! `&mut RangeMap`, and its contract says that the struct is unchanged.
#![tactic(auto)]

ghost use Rattle.std.specs.Prelude.{◌≡◌};

mod compare;
mod counts;
mod ends;
mod gaps;
mod handle;
mod inside;
mod look_ups;
mod rows;
mod table_counts;
mod table_look_ups;
mod table_order;
mod table_search;

pub use handle::RangeMap;

/// The status of a call that succeeded.
pub const DONE: i32 = 0;

/// The status of a call in which an allocation failed.
pub const NO_MEMORY: i32 = 1;

/// The status of a fill that found a key with a value.
pub const TAKEN: i32 = 3;

/// The status of a call whose rows are not in order.
pub const NOT_ORDERED: i32 = 4;

/// The status of a call with an argument that is not one of its numbers. 5 is a status of the header.
pub const INVALID: i32 = 6;

/// Returns the version of the library: 10,000 times the first number, 100 times the second, and the third.
#[unsafe(no_mangle)]
pub extern "C" fn range_map_version() -> u32
    ensures { result ≡ 100 }
{
    100
}
