//! Streams with the results of a closure as values.
ghost use Rattle.std.specs.Prelude.{IfOk};
ghost use Rattle.blaze_streams.specs.Answers.{values, EachValue, IsCallableAtEachValue, IsTransformed};

use crate::asks::{Asks, Whole};
use crate::carrier::ValueCarrier;
use crate::lists::canon_map::CanonMapIter;
use crate::merge::push::push_joined;
use crate::owned::Owned;
use crate::sorted_disjoint_map::SortedDisjointMap;
use blaze_int::Integer;
use std::alloc::{AllocError, Global};

/// Returns the ranges of a stream, each with the result of a closure at its value. `C` selects the closure's arguments.
/// It calls `f` once for each range, ascending. Touching ranges with equal results are joined. If a call of `f` or an
/// allocation fails, `f` is not called again, and the stream and the results are dropped. O(n) with n ranges.
pub fn answers_of<
    T: Integer,
    VC: ValueCarrier,
    S: SortedDisjointMap<T, VC>,
    W: Eq + Clone,
    F: Drop,
    C: Asks<F, VC, W>,
>(alloc: Global, stream: S, mut f: F) -> Result<CanonMapIter<T, Owned<W>>, AllocError>
    requires have { EachValue C.has_arguments (S.left stream) }
    requires callable { IsCallableAtEachValue C.shows C.calls f (values (S.left stream)) }
    ensures { IfOk result (λ new. IsTransformed C.shows C.calls W.eq T.low T.high f
        (S.left stream) new) }
{
    stream.in_hand();
    let mut out = Vec::new(alloc);
    for item in stream {
        let (range, carrier) = item;
        let (start, end) = range.into_inner();
        let answer = C::ask(&mut f, carrier)?;
        push_joined(&mut out, start, end, Owned(answer))?;
    }
    Ok(CanonMapIter::new(out))
}

/// Returns the ranges of a stream, each with the result of a closure at its value. It calls `f` once for each range,
/// ascending. Touching ranges with equal results are joined. If an allocation fails, the stream and the results are
/// dropped. O(n) with n ranges.
pub fn transform<
    T: Integer,
    VC: ValueCarrier,
    S: SortedDisjointMap<T, VC>,
    W: Eq + Clone,
    F: FnMut(VC) -> W,
>(alloc: Global, stream: S, f: F) -> Result<CanonMapIter<T, Owned<W>>, AllocError>
    requires { IsCallableAtEachValue (λ a. VC.shown a.0) F.FnMut f (values (S.left stream)) }
    ensures { IfOk result (λ new. IsTransformed (λ a. VC.shown a.0) F.FnMut W.eq T.low T.high f
        (S.left stream) new) }
{
    answers_of::<T, VC, S, W, F, Whole>(alloc, stream, f)
}
