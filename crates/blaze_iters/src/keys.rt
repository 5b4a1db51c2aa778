//! An iterator over the keys of a stream of ranges.
ghost use Rattle.std.specs.Prelude.{◌≡◌, None, IfSome, map};
ghost use Rattle.std.specs.Iterator.{item_count, UpTo};
ghost use Rattle.std.specs.Iterator.SizeHint.{IsWithinCount};
ghost use Rattle.blaze_entries.specs.Pairs.{pair_list};
ghost use Rattle.blaze_iters.specs.Left.{RangesLeft, unopened, keys_left, YieldsOpeningFirst};
ghost use Rattle.blaze_iters.specs.Left.{YieldsOpeningLast};

use crate::iter_map::IterMap;
use crate::tables::range_values::RangeValuesIter;
use blaze_int::Integer;
use blaze_streams::{BothEnds, SortedDisjointMap, ValueCarrier};
use blaze_table::RangeTable;
use std::iter::FusedIterator;
use std::marker::Model;

/// An iterator over the keys of a stream's ranges, ascending. It allocates nothing. Contracts see it as the remaining
/// pairs of a key and a value.
#[derive(Drop)]
pub struct Keys<T: Integer, VC: ValueCarrier + Copy, I: SortedDisjointMap<T, VC>> {
    pairs: IterMap<T, VC, I>,
}

impl<T: Integer, VC: ValueCarrier + Copy, I: SortedDisjointMap<T, VC>> Model for Keys<T, VC, I> {
    ghost use Rattle.blaze_iters.specs.Left.{RangesLeft};

    ghost Value = { RangesLeft VC.Value I };

    ghost view = { λ s. s.pairs };
}

impl<T: Integer, VC: ValueCarrier + Copy, I: SortedDisjointMap<T, VC>> Keys<T, VC, I> {
    /// Returns an iterator over the keys of a stream's remaining ranges. It allocates nothing.
    pub fn new(inner: I) -> Self
        ensures unopened { result ≡ unopened inner }
        ensures keys { keys_left T.of_rank I.left result
            ≡ map (λ p. p.0) (pair_list T.of_rank (I.left inner)) }
    {
        Keys {
            pairs: IterMap::new(inner),
        }
    }
}

impl<'a, T: Integer, V: Eq + Clone> Keys<T, &'a V, RangeValuesIter<'a, T, V>> {
    /// Returns an iterator over the keys of a borrowed table. It allocates nothing.
    pub fn of_table(table: &'a RangeTable<T, V>) -> Self
        ensures unopened { result ≡ unopened table.now.entries }
        ensures keys { keys_left T.of_rank (λ es. es) result
            ≡ map (λ p. p.0) (pair_list T.of_rank table.now.entries) }
    {
        Keys {
            pairs: IterMap::of_table(table),
        }
    }
}

impl<T: Integer, VC: ValueCarrier + Copy, I: SortedDisjointMap<T, VC>> Iterator for Keys<T, VC, I> {
    type Item = T;

    ghost next_gives = { YieldsOpeningFirst I.left (λ k. k) (keys_left T.of_rank I.left) };

    ghost remaining = { item_count (keys_left T.of_rank I.left) };

    fn next(&mut self) -> Option<T> {
        let (key, _) = self.pairs.next()?;
        Some(key)
    }

    /// Returns the lower bound of the stream's `size_hint`, in ranges, as the lower bound, and no upper bound.
    fn size_hint(&self) -> (usize, Option<usize>)
        ensures lower { IsWithinCount result.0 (item_count (keys_left T.of_rank I.left) self.now) }
        ensures upper { IfSome result.1 (UpTo (item_count (keys_left T.of_rank I.left) self.now)) }
        ensures hint { result ≡ (I.least self.now.inner, None) }
    {
        self.pairs.size_hint()
    }
}

impl<T: Integer, VC: ValueCarrier + Copy, I: BothEnds<T, VC>> DoubleEndedIterator
    for Keys<T, VC, I> {
    ghost next_back_gives = { YieldsOpeningLast I.left (λ k. k) (keys_left T.of_rank I.left) };

    fn next_back(&mut self) -> Option<T> {
        let (key, _) = self.pairs.next_back()?;
        Some(key)
    }
}

impl<T: Integer, VC: ValueCarrier + Copy, I: SortedDisjointMap<T, VC>> FusedIterator
    for Keys<T, VC, I> {}
