//! The words of a script: keys, values, ranges and pairs, and the maps and sets that a line can name.
#![tactic(auto)]

mod fault;
mod keys;
mod pairs;
mod results;
mod state;
mod words;

pub use fault::{Fault, unless_bad};
pub use keys::ScriptKey;
pub use pairs::{points, ranges};
pub use results::{print, print_made};
pub use state::{Map, MapName, SetName, State, other_map};
pub use words::{bounds, inclusive, key, nth_call, value};
