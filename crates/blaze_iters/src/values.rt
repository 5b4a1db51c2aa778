//! An iterator over the values of a stream of ranges, one for each key.
ghost use Rattle.std.specs.Prelude.{◌≡◌, None, IfSome, map};
ghost use Rattle.std.specs.Iterator.{item_count, UpTo};
ghost use Rattle.std.specs.Iterator.SizeHint.{IsWithinCount};
ghost use Rattle.blaze_entries.specs.Pairs.{pair_list};
ghost use Rattle.blaze_iters.specs.Left.{RangesLeft, unopened, values_left, YieldsOpeningFirst};
ghost use Rattle.blaze_iters.specs.Left.{YieldsOpeningLast};

use crate::iter_map::IterMap;
use crate::tables::range_values::RangeValuesIter;
use blaze_int::Integer;
use blaze_streams::{BothEnds, SortedDisjointMap, ValueCarrier};
use blaze_table::RangeTable;
use std::iter::FusedIterator;
use std::marker::Model;

/// An iterator over the carriers of a stream's values, one for each key, in the order of the keys. It allocates
/// nothing. Contracts see it as the remaining pairs of a key and a value.
#[derive(Drop)]
pub struct Values<T: Integer, VC: ValueCarrier + Copy, I: SortedDisjointMap<T, VC>> {
    pairs: IterMap<T, VC, I>,
}

impl<T: Integer, VC: ValueCarrier + Copy, I: SortedDisjointMap<T, VC>> Model for Values<T, VC, I> {
    ghost use Rattle.blaze_iters.specs.Left.{RangesLeft};

    ghost Value = { RangesLeft VC.Value I };

    ghost view = { λ s. s.pairs };
}

impl<T: Integer, VC: ValueCarrier + Copy, I: SortedDisjointMap<T, VC>> Values<T, VC, I> {
    /// Returns an iterator over the values of a stream's remaining ranges, one for each key. It allocates nothing.
    pub fn new(inner: I) -> Self
        ensures unopened { result ≡ unopened inner }
        ensures values { values_left T.of_rank I.left result
            ≡ map (λ p. p.1) (pair_list T.of_rank (I.left inner)) }
    {
        Values {
            pairs: IterMap::new(inner),
        }
    }
}

impl<'a, T: Integer, V: Eq + Clone> Values<T, &'a V, RangeValuesIter<'a, T, V>> {
    /// Returns an iterator over the values of a borrowed table, one for each key. It allocates nothing.
    pub fn of_table(table: &'a RangeTable<T, V>) -> Self
        ensures unopened { result ≡ unopened table.now.entries }
        ensures values { values_left T.of_rank (λ es. es) result
            ≡ map (λ p. p.1) (pair_list T.of_rank table.now.entries) }
    {
        Values {
            pairs: IterMap::of_table(table),
        }
    }
}

impl<T: Integer, VC: ValueCarrier + Copy, I: SortedDisjointMap<T, VC>> Iterator
    for Values<T, VC, I> {
    type Item = VC;

    ghost next_gives = { YieldsOpeningFirst I.left VC.shown (values_left T.of_rank I.left) };

    ghost remaining = { item_count (values_left T.of_rank I.left) };

    fn next(&mut self) -> Option<VC> {
        let (_, value) = self.pairs.next()?;
        Some(value)
    }

    /// Returns the lower bound of the stream's `size_hint`, in ranges, as the lower bound, and no upper bound.
    fn size_hint(&self) -> (usize, Option<usize>)
        ensures lower { IsWithinCount result.0
            (item_count (values_left T.of_rank I.left) self.now) }
        ensures upper { IfSome result.1
            (UpTo (item_count (values_left T.of_rank I.left) self.now)) }
        ensures hint { result ≡ (I.least self.now.inner, None) }
    {
        self.pairs.size_hint()
    }
}

impl<T: Integer, VC: ValueCarrier + Copy, I: BothEnds<T, VC>> DoubleEndedIterator
    for Values<T, VC, I> {
    ghost next_back_gives = { YieldsOpeningLast I.left VC.shown (values_left T.of_rank I.left) };

    fn next_back(&mut self) -> Option<VC> {
        let (_, value) = self.pairs.next_back()?;
        Some(value)
    }
}

impl<T: Integer, VC: ValueCarrier + Copy, I: SortedDisjointMap<T, VC>> FusedIterator
    for Values<T, VC, I> {}
