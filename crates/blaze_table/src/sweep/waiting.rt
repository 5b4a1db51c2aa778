//! A heap of waiting pairs, each by its position and its index. The top is the pair with the greatest position.
ghost use Rattle.std.specs.Prelude.{◌≡◌, ◌≤◌, ◌∷◌, ◌+◌, [], All, IsSome, IfSome, IfNone, IsPermutation};
ghost use Rattle.std.specs.BinaryHeap.{IsHeap, heap_items, heap_len};
ghost use Rattle.std.specs.List.{slice_get};
ghost use Rattle.blaze_table.specs.Pieces.{place_cmp};

use std::alloc::Global;
use std::collections::BinaryHeap;

/// Returns the position and the index of the pair with the greatest position.
pub(crate) fn latest_waiting(waiting: &BinaryHeap<(usize, usize), Global>) -> Option<(usize, usize)>
    requires { IsHeap place_cmp (heap_items waiting.now) }
    ensures top { IfSome result (λ top. slice_get (heap_items waiting.now) 0 ≡ Some top) }
    ensures greatest { IfSome result (λ top. All (λ w. w.0 ≤ top.0) (heap_items waiting.now)) }
    ensures none { IfNone result (heap_items waiting.now ≡ []) }
{
    match waiting.peek() {
        Some(top) => Some(*top),
        None => None,
    }
}

/// Removes the pair with the greatest position.
pub(crate) fn drop_top(waiting: &mut BinaryHeap<(usize, usize), Global>)
    requires heap { IsHeap place_cmp (heap_items waiting.old) }
    requires some { IsSome (slice_get (heap_items waiting.old) 0) }
    ensures heap { IsHeap place_cmp (heap_items waiting.new) }
    ensures permutation { IfSome (slice_get (heap_items waiting.old) 0)
        (λ top. IsPermutation (heap_items waiting.old) (top ∷ heap_items waiting.new)) }
    ensures len { heap_len waiting.new + 1 ≡ heap_len waiting.old }
{
    match waiting.pop() {
        Some(_) => {}
        None => unreachable!(),
    }
}
