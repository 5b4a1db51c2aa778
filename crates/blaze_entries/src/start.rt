//! Starts of entries, with the order that the tree uses.
ghost use Rattle.std.specs.Prelude.{◌≡◌};
ghost use Rattle.std.specs.Cmp.Rules.{comparing};
ghost use Rattle.std.specs.Ordering.{as_partial_cmp, int_cmp, int_eq, on};
ghost use Rattle.std.proofs.Common.{rules};

use blaze_int::Integer;
use blaze_int::compare::is_below;
use std::alloc::AllocError;
use std::cmp::Ordering;
use std::marker::Model;

/// The first key of an entry. Contracts see it as the key itself.
#[derive(Copy)]
pub struct Start<T>(pub T);

impl<T> Model for Start<T> {
    ghost Value = { T };

    ghost view = { λ s. s.0 };

    ghost inverse = { λ key. record { 0 = key } };
}

impl<T: Copy> Clone for Start<T> {
    ghost is_clone = { λ start copy. copy ≡ start };

    fn clone(&self) -> Result<Self, AllocError> {
        Ok(*self)
    }
}

// Returns whether two keys are equal. It is not inlined: see `cmp` below.
#[inline(never)]
fn is_same<T: Integer>(key: T, other: T) -> bool
    ensures { result ≡ int_eq (T.rank key) (T.rank other) }
{
    key.in_hand();
    other.in_hand();
    key == other
}

/// Starts are equal if their ranks are.
impl<T: Integer> PartialEq for Start<T> {
    ghost eq = { on T.rank int_eq };

    ghost laws = { Prim.search (comparing, rules) depth 9 };

    fn eq(&self, other: &Self) -> bool {
        is_same(self.0, other.0)
    }
}

impl<T: Integer> Eq for Start<T> {
    ghost laws = { Prim.search (comparing, rules) depth 9 };
}

impl<T: Integer> PartialOrd for Start<T> {
    ghost partial_cmp = { as_partial_cmp (on T.rank int_cmp) };

    ghost laws = { Prim.search (comparing, rules) depth 9 };

    fn partial_cmp(&self, other: &Self) -> Option<Ordering> {
        Some(self.cmp(other))
    }
}

/// Compares by rank, which is the order of the keys. The tests for greater and less are inlined, and the test for
/// equality is not. So a lookup in the tree takes one branch for each key. With the order of the number types the
/// compiler computes all three results for each key.
impl<T: Integer> Ord for Start<T> {
    ghost cmp = { on T.rank int_cmp };

    ghost total = { Prim.search (comparing, rules) depth 9 };

    ghost matches_partial_cmp = { Prim.search (comparing, rules) depth 9 };

    ghost matches_eq = { Prim.search (comparing, rules) depth 9 };

    fn cmp(&self, other: &Self) -> Ordering {
        if is_below(other.0, self.0) {
            Ordering::Greater
        } else if is_below(self.0, other.0) {
            Ordering::Less
        } else if is_same(self.0, other.0) {
            Ordering::Equal
        } else {
            Ordering::Less
        }
    }
}
