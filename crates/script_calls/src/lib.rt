//! The calls of a script's lines that begin with the name of a map or a set: they read or change it.
#![tactic(auto)]

mod changes;
mod comparisons;
mod extends;
mod iterate;
mod look_ups;
mod other_maps;
mod relations;
mod sets;
mod updates;

pub use changes::Change;
pub use comparisons::Comparison;
pub use extends::Extend;
pub use iterate::Iterate;
pub use look_ups::LookUp;
pub use other_maps::OtherMap;
pub use relations::Relation;
pub use sets::SetLookUp;
pub use updates::Update;
