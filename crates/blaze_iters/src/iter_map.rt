//! An iterator over the keys of a stream of ranges, each with its value.
ghost use Rattle.std.specs.Prelude.{◌≡◌, [], None, IfSome, IfNone};
ghost use Rattle.std.specs.Iterator.{item_count, UpTo};
ghost use Rattle.std.specs.Iterator.SizeHint.{IsWithinCount};
ghost use Rattle.blaze_entries.specs.Pairs.{pair_list};
ghost use Rattle.blaze_iters.specs.Left.{RangesLeft, unopened, shown_left, AreEndsFull, OpensFirst};
ghost use Rattle.blaze_iters.specs.Left.{OpensLast, YieldsOpeningFirst, YieldsOpeningLast};
ghost use Rattle.blaze_iters.specs.Left.{ranges_left, pairs_left, shown_key_value};

use crate::rest::{first_pair, last_pair};
use crate::tables::range_values::RangeValuesIter;
use blaze_int::Integer;
use blaze_streams::{BothEnds, SortedDisjointMap, ValueCarrier};
use blaze_table::{RangeEntry, RangeTable};
use std::iter::FusedIterator;
use std::marker::Model;

/// An iterator over the keys of a stream's ranges, ascending, each with a carrier of its value. It allocates nothing.
/// Each call takes O(1) time and at most one call of the stream.
#[derive(Drop)]
pub struct IterMap<T: Integer, VC: ValueCarrier + Copy, I: SortedDisjointMap<T, VC>> {
    front: Option<RangeEntry<T, VC>>,
    inner: I,
    back: Option<RangeEntry<T, VC>>,
}

impl<T: Integer, VC: ValueCarrier + Copy, I: SortedDisjointMap<T, VC>> Model for IterMap<T, VC, I> {
    ghost use Rattle.blaze_iters.specs.Left.{RangesLeft, shown_left, AreEndsFull};

    ghost Value = { RangesLeft VC.Value I };

    ghost view = { λ s. shown_left T.rank VC.shown s.front s.inner s.back };

    ghost invariant = { λ s. AreEndsFull (shown_left T.rank VC.shown s.front s.inner s.back) };
}

impl<T: Integer, VC: ValueCarrier + Copy, I: SortedDisjointMap<T, VC>> IterMap<T, VC, I> {
    /// Returns an iterator over the keys of a stream's remaining ranges, with their carriers. It allocates nothing.
    pub fn new(inner: I) -> Self
        ensures unopened { result ≡ unopened inner }
        ensures pairs { pairs_left T.of_rank I.left result ≡ pair_list T.of_rank (I.left inner) }
    {
        IterMap {
            front: None,
            inner,
            back: None,
        }
    }
}

impl<'a, T: Integer, V: Eq + Clone> IterMap<T, &'a V, RangeValuesIter<'a, T, V>> {
    /// Returns an iterator over the keys of a borrowed table, with their values. It allocates nothing.
    pub fn of_table(table: &'a RangeTable<T, V>) -> Self
        ensures unopened { result ≡ unopened table.now.entries }
        ensures pairs { pairs_left T.of_rank (λ es. es) result
            ≡ pair_list T.of_rank table.now.entries }
    {
        IterMap {
            front: None,
            inner: RangeValuesIter::new(table),
            back: None,
        }
    }
}

/// Takes the first remaining range, if none is open at the front: the stream's first, or else the range that is open at
/// the back.
fn take_first<T: Integer, VC: ValueCarrier, I: SortedDisjointMap<T, VC>>(
    inner: &mut I,
    back: &mut Option<RangeEntry<T, VC>>,
) -> Option<RangeEntry<T, VC>>
    requires { AreEndsFull (shown_left T.rank VC.shown None inner.old back.old) }
    ensures left { ranges_left I.left (shown_left T.rank VC.shown None inner.old back.old)
        ≡ ranges_left I.left (shown_left T.rank VC.shown result inner.new back.new) }
    ensures full { AreEndsFull (shown_left T.rank VC.shown result inner.new back.new) }
    ensures opens { OpensFirst I.left (shown_left T.rank VC.shown None inner.old back.old)
        (shown_left T.rank VC.shown None inner.new back.new) }
    ensures none { IfNone result (ranges_left I.left (shown_left T.rank VC.shown None inner.new back.new)
        ≡ []) }
{
    inner.in_hand();
    match inner.next() {
        Some((range, value)) => {
            let (start, end) = range.into_inner();
            Some(RangeEntry { start, end, value })
        }
        None => back.take(),
    }
}

impl<T: Integer, VC: ValueCarrier + Copy, I: SortedDisjointMap<T, VC>> Iterator
    for IterMap<T, VC, I> {
    type Item = (T, VC);

    ghost next_gives = { YieldsOpeningFirst I.left (shown_key_value VC.shown)
        (pairs_left T.of_rank I.left) };

    ghost remaining = { item_count (pairs_left T.of_rank I.left) };

    fn next(&mut self) -> Option<(T, VC)> {
        if let Some(pair) = first_pair(&mut self.front) {
            return Some(pair);
        }
        self.front = take_first(&mut self.inner, &mut self.back);
        first_pair(&mut self.front)
    }

    /// Returns the lower bound of the stream's `size_hint`, in ranges, as the lower bound, and no upper bound.
    fn size_hint(&self) -> (usize, Option<usize>)
        ensures lower { IsWithinCount result.0 (item_count (pairs_left T.of_rank I.left) self.now) }
        ensures upper { IfSome result.1 (UpTo (item_count (pairs_left T.of_rank I.left) self.now)) }
        ensures hint { result ≡ (I.least self.now.inner, None) }
    {
        self.inner.in_hand();
        (self.inner.least_len(), None)
    }
}

/// Takes the last remaining range, if none is open at the back: the stream's last, or else the range that is open at
/// the front.
fn take_last<T: Integer, VC: ValueCarrier, I: BothEnds<T, VC>>(
    front: &mut Option<RangeEntry<T, VC>>,
    inner: &mut I,
) -> Option<RangeEntry<T, VC>>
    requires { AreEndsFull (shown_left T.rank VC.shown front.old inner.old None) }
    ensures left { ranges_left I.left (shown_left T.rank VC.shown front.old inner.old None)
        ≡ ranges_left I.left (shown_left T.rank VC.shown front.new inner.new result) }
    ensures full { AreEndsFull (shown_left T.rank VC.shown front.new inner.new result) }
    ensures opens { OpensLast I.left (shown_left T.rank VC.shown front.old inner.old None)
        (shown_left T.rank VC.shown front.new inner.new None) }
    ensures none { IfNone result (ranges_left I.left (shown_left T.rank VC.shown front.new inner.new None)
        ≡ []) }
{
    inner.in_hand();
    match inner.next_back() {
        Some((range, value)) => {
            let (start, end) = range.into_inner();
            Some(RangeEntry { start, end, value })
        }
        None => front.take(),
    }
}

impl<T: Integer, VC: ValueCarrier + Copy, I: BothEnds<T, VC>> DoubleEndedIterator
    for IterMap<T, VC, I> {
    ghost next_back_gives = { YieldsOpeningLast I.left (shown_key_value VC.shown)
        (pairs_left T.of_rank I.left) };

    fn next_back(&mut self) -> Option<(T, VC)> {
        if let Some(pair) = last_pair(&mut self.back) {
            return Some(pair);
        }
        self.back = take_last(&mut self.front, &mut self.inner);
        last_pair(&mut self.back)
    }
}

impl<T: Integer, VC: ValueCarrier + Copy, I: SortedDisjointMap<T, VC>> FusedIterator
    for IterMap<T, VC, I> {}
