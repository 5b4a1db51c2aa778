//! A stream of ranges, as a stream of ranges with values.
ghost use Rattle.std.specs.Prelude.{◌≡◌, refl};
ghost use Rattle.std.specs.Iterator.{YieldsFirstBy, item_count};
ghost use Rattle.blaze_streams.specs.Ranges.{shown_range};

use crate::sorted_disjoint_map::SortedDisjointMap;
use blaze_entries::SortedDisjoint;
use blaze_int::Integer;
use std::marker::PhantomData;
use std::ops::RangeInclusive;

/// A stream of ranges, each with the unit value.
#[derive(Drop)]
pub struct WithUnit<T: Integer, S: SortedDisjoint<T>> {
    ranges: S,
    keys: PhantomData<T>,
}

impl<T: Integer, S: SortedDisjoint<T>> WithUnit<T, S> {
    /// Returns a stream of the ranges, each with the unit value. It allocates nothing.
    pub fn new(ranges: S) -> Self
        ensures { result.ranges ≡ ranges }
    {
        WithUnit {
            ranges,
            keys: PhantomData,
        }
    }
}

impl<T: Integer, S: SortedDisjoint<T>> Iterator for WithUnit<T, S> {
    type Item = (RangeInclusive<T>, ());

    ghost next_gives = { YieldsFirstBy (shown_range T.rank (λ u. u)) (λ s. S.left s.ranges) };

    ghost remaining = { item_count (λ s. S.left s.ranges) };

    fn next(&mut self) -> Option<(RangeInclusive<T>, ())> {
        let (start, end) = self.ranges.next()?.into_inner();
        Some((start..=end, ()))
    }
}

impl<T: Integer, S: SortedDisjoint<T>> SortedDisjointMap<T, ()> for WithUnit<T, S> {
    ghost left = { λ s. S.left s.ranges };

    ghost least = { λ s. S.least s.ranges };

    fn in_hand(&self) {
        self.ranges.in_hand();
    }

    fn least_len(&self) -> usize {
        self.ranges.least_len()
    }

    ghost ready = { λ _. tt };

    ghost counted = { λ _. refl };

    ghost gives = { λ _ _ _ given. given };
}
