//! The types of the streams that operations over many inputs return.

use crate::lists::canon_map::CanonMapIter;
use crate::owned::Owned;

/// The union of many streams.
pub type MultiwayUnionMap<T, VC> = CanonMapIter<T, VC>;

/// The intersection of many streams.
pub type MultiwayIntersectionMap<T, VC> = CanonMapIter<T, VC>;

/// The symmetric difference of many streams.
pub type MultiwaySymmetricDifferenceMap<T, VC> = CanonMapIter<T, VC>;

/// The inner join of many streams.
pub type MultiwayInnerJoinMap<T, W> = CanonMapIter<T, Owned<W>>;

/// The full join of many streams.
pub type MultiwayFullJoinMap<T, W> = CanonMapIter<T, Owned<W>>;
