//! An entry by its first and last key, as lookups return it.

/// An entry: its first key, its last key and a value. In the result of a lookup, the value may be a clone, a
/// comparison's result or `()`.
#[derive(Clone, Copy, Drop)]
pub struct RangeEntry<T, V> {
    pub start: T,
    pub end: T,
    pub value: V,
}
