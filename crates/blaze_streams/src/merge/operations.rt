//! Operations between many streams, each by an operation between two.
ghost use Rattle.std.specs.Prelude.{◌≡◌, [], ◌∷◌, List, Option, None, Some, refl, is_some, IfOk};
ghost use Rattle.blaze_entries.specs.Entries.{SameOption};
ghost use Rattle.blaze_streams.specs.Many.{last_value, last_of_all, has_odd};
ghost use Rattle.blaze_streams.specs.Merges.{GivesBoth};

use crate::carrier::ValueCarrier;
use crate::lists::canon_map::CanonMapIter;
use crate::merge::union::{intersection_of, symmetric_difference_of, union_of};
use crate::sorted_disjoint_map::SortedDisjointMap;
use blaze_int::Integer;
use std::alloc::{AllocError, Global};

/// An operation between many streams whose result at a key depends only on what they have there, first to last.
pub trait Operation<T: Integer, VC: ValueCarrier> {
    // Whether a value or none is given for the row of what streams have at a key.
    ghost gives: { List (Option VC.Value) → Option VC.Value → Type 0 };

    /// One stream for two, each of which is the result for some of many. If an allocation fails, both are dropped.
    fn merge<L: SortedDisjointMap<T, VC>, R: SortedDisjointMap<T, VC>>(
        alloc: Global,
        left: L,
        right: R,
    ) -> Result<CanonMapIter<T, VC>, AllocError>
        requires { VC.can_carry }
        ensures { IfOk result (GivesBoth gives (L.left left) (R.left right)) };

    // Nothing is given for nothing.
    ghost of_none: { gives [] None };

    // What one stream has is given for it.
    ghost of_one: { (x : Option VC.Value) → gives (x ∷ []) x };
}

/// The value of the last stream that has one.
pub struct Union;

impl<T: Integer, VC: ValueCarrier> Operation<T, VC> for Union {
    ghost gives = { λ xs x. SameOption VC.Value.eq x (last_value xs) };

    fn merge<L: SortedDisjointMap<T, VC>, R: SortedDisjointMap<T, VC>>(
        alloc: Global,
        left: L,
        right: R,
    ) -> Result<CanonMapIter<T, VC>, AllocError> {
        union_of(alloc, left, right)
    }

    ghost of_none = { tt };

    ghost of_one = { elim [ None ↦ tt | Some x ↦ VC.Value.Eq.laws.refl x ] };
}

/// The value of the last stream, where all have one.
pub struct Intersection;

impl<T: Integer, VC: ValueCarrier> Operation<T, VC> for Intersection {
    ghost gives = { λ xs x. SameOption VC.Value.eq x (last_of_all xs) };

    fn merge<L: SortedDisjointMap<T, VC>, R: SortedDisjointMap<T, VC>>(
        alloc: Global,
        left: L,
        right: R,
    ) -> Result<CanonMapIter<T, VC>, AllocError> {
        intersection_of(alloc, right, left)
    }

    ghost of_none = { tt };

    ghost of_one = { elim [ None ↦ tt | Some x ↦ VC.Value.Eq.laws.refl x ] };
}

/// The keys that an odd number of streams have, each with the value of one of them.
pub struct OddKeys;

impl<T: Integer, VC: ValueCarrier> Operation<T, VC> for OddKeys {
    ghost gives = { λ xs x. is_some x ≡ has_odd xs };

    fn merge<L: SortedDisjointMap<T, VC>, R: SortedDisjointMap<T, VC>>(
        alloc: Global,
        left: L,
        right: R,
    ) -> Result<CanonMapIter<T, VC>, AllocError> {
        symmetric_difference_of(alloc, left, right)
    }

    ghost of_none = { refl };

    ghost of_one = { elim [ None ↦ refl | Some x ↦ refl ] };
}
