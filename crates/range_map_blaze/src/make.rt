//! Maps made of pairs in order, where a later pair wins.
ghost use Rattle.std.specs.Iterator.{IsFiniteIterable};
ghost use Rattle.std.specs.Prelude.{map, IfOk};
ghost use Rattle.blaze_streams.specs.Ranges.{shown_range};
ghost use Rattle.blaze_table.specs.CanonicalOf.{IsCanonicalOf};
ghost use Rattle.blaze_entries.specs.Painted.{ClonesAreAlike};
ghost use Rattle.range_map_blaze.specs.Collected.{CollectsItems};
ghost use Rattle.range_map_blaze.specs.Extended.{shown_point};
ghost use Rattle.range_map_blaze.specs.Made.{IsMade};

use crate::map::RangeMapBlaze;
use crate::pairs::{
    BorrowedPair, Pair, borrowed_pairs_of, map_of_borrowed_pairs, map_of_pairs, pairs_of,
};
use blaze_int::Integer;
use std::alloc::{AllocError, Global};
use std::ops::RangeInclusive;

/// The map of the pairs of an iterable, in order. All constructors from owned pairs call it.
fn map_of<T: Integer, V: Eq + Clone, P: Pair<T, V>, I: IntoIterator<Item = P>>(
    alloc: Global,
    iter: I,
) -> Result<RangeMapBlaze<T, V>, AllocError>
    requires ends { IsFiniteIterable I.into_iter_gives I.IntoIter.can_next
        I.IntoIter.remaining iter }
    requires clones { ClonesAreAlike V.is_clone V.eq }
    ensures { IfOk result (IsMade (CollectsItems I.into_iter_gives I.IntoIter.next_gives
        (λ items. IsCanonicalOf V.eq T.low T.high (map P.pair items)) iter)) }
{
    let pairs = pairs_of(alloc, iter)?;
    map_of_pairs(alloc, pairs)
}

/// The map of the borrowed pairs of an iterable, in order. All constructors from borrowed pairs or values call it.
fn map_of_borrowed<
    'a,
    T: Integer,
    V: Eq + Clone + 'a,
    P: BorrowedPair<'a, T, V>,
    I: IntoIterator<Item = P>,
>(alloc: Global, iter: I) -> Result<RangeMapBlaze<T, V>, AllocError>
    requires ends { IsFiniteIterable I.into_iter_gives I.IntoIter.can_next
        I.IntoIter.remaining iter }
    requires clones { ClonesAreAlike V.is_clone V.eq }
    ensures { IfOk result (IsMade (CollectsItems I.into_iter_gives I.IntoIter.next_gives
        (λ items. IsCanonicalOf V.eq T.low T.high (map P.pair items)) iter)) }
{
    let pairs = borrowed_pairs_of(alloc, iter)?;
    map_of_borrowed_pairs(alloc, pairs)
}

impl<T: Integer, V: Eq + Clone> RangeMapBlaze<T, V> {
    /// Returns the map of the pairs, each a key with its value. A later pair replaces an earlier one. Values are moved.
    /// Allocates. If an allocation fails, the pairs are dropped. O(p log p) for p pairs, or O(p) if they ascend.
    ///
    /// ```
    /// RangeMapBlaze::from_points(alloc, [(3, 'a'), (1, 'a'), (2, 'b'), (2, 'a')])?; // (1..=3, 'a')
    /// ```
    pub fn from_points<I: IntoIterator<Item = (T, V)>>(
        alloc: Global,
        iter: I,
    ) -> Result<Self, AllocError>
        requires ends { IsFiniteIterable I.into_iter_gives I.IntoIter.can_next
            I.IntoIter.remaining iter }
        requires clones { ClonesAreAlike V.is_clone V.eq }
        ensures { IfOk result (IsMade (CollectsItems I.into_iter_gives I.IntoIter.next_gives
            (λ items. IsCanonicalOf V.eq T.low T.high (map (shown_point T.rank (λ v. v)) items)) iter)) }
    {
        map_of(alloc, iter)
    }

    /// Returns the map of the pairs, each a range with its value. A later pair replaces an earlier one. A pair whose start is
    /// above its end has no key.
    ///
    /// A value is cloned only if its range is cut into several pieces; otherwise it is moved. Allocates. If an allocation fails,
    /// the pairs are dropped. O(p log p) for p pairs, or O(p) if they ascend and are disjoint.
    ///
    /// ```
    /// RangeMapBlaze::from_ranges(alloc, [(0..=9, 'a'), (5..=6, 'b')])?; // (0..=4, 'a'), (5..=6, 'b'), (7..=9, 'a')
    /// ```
    pub fn from_ranges<I: IntoIterator<Item = (RangeInclusive<T>, V)>>(
        alloc: Global,
        iter: I,
    ) -> Result<Self, AllocError>
        requires ends { IsFiniteIterable I.into_iter_gives I.IntoIter.can_next
            I.IntoIter.remaining iter }
        requires clones { ClonesAreAlike V.is_clone V.eq }
        ensures { IfOk result (IsMade (CollectsItems I.into_iter_gives I.IntoIter.next_gives
            (λ items. IsCanonicalOf V.eq T.low T.high (map (shown_range T.rank (λ v. v)) items)) iter)) }
    {
        map_of(alloc, iter)
    }

    /// Returns the map of the pairs, each a key with a reference to its value. A later pair replaces an earlier one. Each entry
    /// has a clone of its value, and no other value is cloned.
    ///
    /// Allocates. If an allocation fails, the clones are dropped. O(p log p) for p pairs, or O(p) if they ascend.
    ///
    /// ```
    /// RangeMapBlaze::from_points_ref_value(alloc, [(1, &'a'), (2, &'a')])?; // (1..=2, 'a')
    /// ```
    pub fn from_points_ref_value<'a, I: IntoIterator<Item = (T, &'a V)>>(
        alloc: Global,
        iter: I,
    ) -> Result<Self, AllocError>
    where
        T: 'a,
        V: 'a,
        requires ends { IsFiniteIterable I.into_iter_gives I.IntoIter.can_next
            I.IntoIter.remaining iter }
        requires clones { ClonesAreAlike V.is_clone V.eq }
        ensures { IfOk result (IsMade (CollectsItems I.into_iter_gives I.IntoIter.next_gives
            (λ items. IsCanonicalOf V.eq T.low T.high
            (map (shown_point T.rank (λ v. v.now)) items)) iter)) }
    {
        map_of_borrowed(alloc, iter)
    }

    /// Returns the map of the pairs, each a range with a reference to its value. A later pair replaces an earlier one. A pair
    /// whose start is above its end has no key. Each entry has a clone of its value, and no other value is cloned.
    ///
    /// Allocates. If an allocation fails, the clones are dropped. O(p log p) for p pairs, or O(p) if they ascend and are
    /// disjoint.
    ///
    /// ```
    /// RangeMapBlaze::from_ranges_ref_value(alloc, [(0..=9, &'a'), (5..=9, &'b')])?; // (0..=4, 'a'), (5..=9, 'b')
    /// ```
    pub fn from_ranges_ref_value<'a, I: IntoIterator<Item = (RangeInclusive<T>, &'a V)>>(
        alloc: Global,
        iter: I,
    ) -> Result<Self, AllocError>
    where
        T: 'a,
        V: 'a,
        requires ends { IsFiniteIterable I.into_iter_gives I.IntoIter.can_next
            I.IntoIter.remaining iter }
        requires clones { ClonesAreAlike V.is_clone V.eq }
        ensures { IfOk result (IsMade (CollectsItems I.into_iter_gives I.IntoIter.next_gives
            (λ items. IsCanonicalOf V.eq T.low T.high
            (map (shown_range T.rank (λ v. v.now)) items)) iter)) }
    {
        map_of_borrowed(alloc, iter)
    }

    /// Returns the map of borrowed pairs, each a key with its value. A later pair replaces an earlier one. Each entry has a clone
    /// of its value, and no other value is cloned.
    ///
    /// Allocates. If an allocation fails, the clones are dropped. O(p log p) for p pairs, or O(p) if they ascend.
    ///
    /// ```
    /// let pairs = [(1, 'a'), (2, 'a')];
    /// RangeMapBlaze::from_ref_points(alloc, &pairs)?; // (1..=2, 'a')
    /// ```
    pub fn from_ref_points<'a, I: IntoIterator<Item = &'a (T, V)>>(
        alloc: Global,
        iter: I,
    ) -> Result<Self, AllocError>
    where
        T: 'a,
        V: 'a,
        requires ends { IsFiniteIterable I.into_iter_gives I.IntoIter.can_next
            I.IntoIter.remaining iter }
        requires clones { ClonesAreAlike V.is_clone V.eq }
        ensures { IfOk result (IsMade (CollectsItems I.into_iter_gives I.IntoIter.next_gives
            (λ items. IsCanonicalOf V.eq T.low T.high
            (map (λ p. shown_point T.rank (λ v. v) p.now) items)) iter)) }
    {
        map_of_borrowed(alloc, iter)
    }

    /// Returns the map of borrowed pairs, each a range with its value. A later pair replaces an earlier one. A pair whose start
    /// is above its end has no key. Each entry has a clone of its value, and no other value is cloned.
    ///
    /// Allocates. If an allocation fails, the clones are dropped. O(p log p) for p pairs, or O(p) if they ascend and are
    /// disjoint.
    ///
    /// ```
    /// let pairs = [(0..=9, 'a'), (5..=9, 'b')];
    /// RangeMapBlaze::from_ref_ranges(alloc, &pairs)?; // (0..=4, 'a'), (5..=9, 'b')
    /// ```
    pub fn from_ref_ranges<'a, I: IntoIterator<Item = &'a (RangeInclusive<T>, V)>>(
        alloc: Global,
        iter: I,
    ) -> Result<Self, AllocError>
    where
        T: 'a,
        V: 'a,
        requires ends { IsFiniteIterable I.into_iter_gives I.IntoIter.can_next
            I.IntoIter.remaining iter }
        requires clones { ClonesAreAlike V.is_clone V.eq }
        ensures { IfOk result (IsMade (CollectsItems I.into_iter_gives I.IntoIter.next_gives
            (λ items. IsCanonicalOf V.eq T.low T.high
            (map (λ p. shown_range T.rank (λ v. v) p.now) items)) iter)) }
    {
        map_of_borrowed(alloc, iter)
    }

    /// Returns the map of borrowed pairs, each a key with a reference to its value. A later pair replaces an earlier one. Each
    /// entry has a clone of its value, and no other value is cloned.
    ///
    /// Allocates. If an allocation fails, the clones are dropped. O(p log p) for p pairs, or O(p) if they ascend.
    ///
    /// ```
    /// let pairs = [(1, &'a'), (2, &'a')];
    /// RangeMapBlaze::from_ref_points_ref_value(alloc, &pairs)?; // (1..=2, 'a')
    /// ```
    pub fn from_ref_points_ref_value<'a, I: IntoIterator<Item = &'a (T, &'a V)>>(
        alloc: Global,
        iter: I,
    ) -> Result<Self, AllocError>
    where
        T: 'a,
        V: 'a,
        requires ends { IsFiniteIterable I.into_iter_gives I.IntoIter.can_next
            I.IntoIter.remaining iter }
        requires clones { ClonesAreAlike V.is_clone V.eq }
        ensures { IfOk result (IsMade (CollectsItems I.into_iter_gives I.IntoIter.next_gives
            (λ items. IsCanonicalOf V.eq T.low T.high
            (map (λ p. shown_point T.rank (λ v. v.now) p.now) items)) iter)) }
    {
        map_of_borrowed(alloc, iter)
    }

    /// Returns the map of borrowed pairs, each a range with a reference to its value. A later pair replaces an earlier one. A
    /// pair whose start is above its end has no key. Each entry has a clone of its value, and no other value is cloned.
    ///
    /// Allocates. If an allocation fails, the clones are dropped. O(p log p) for p pairs, or O(p) if they ascend and are
    /// disjoint.
    ///
    /// ```
    /// let pairs = [(0..=9, &'a'), (5..=9, &'b')];
    /// RangeMapBlaze::from_ref_ranges_ref_value(alloc, &pairs)?; // (0..=4, 'a'), (5..=9, 'b')
    /// ```
    pub fn from_ref_ranges_ref_value<'a, I: IntoIterator<Item = &'a (RangeInclusive<T>, &'a V)>>(
        alloc: Global,
        iter: I,
    ) -> Result<Self, AllocError>
    where
        T: 'a,
        V: 'a,
        requires ends { IsFiniteIterable I.into_iter_gives I.IntoIter.can_next
            I.IntoIter.remaining iter }
        requires clones { ClonesAreAlike V.is_clone V.eq }
        ensures { IfOk result (IsMade (CollectsItems I.into_iter_gives I.IntoIter.next_gives
            (λ items. IsCanonicalOf V.eq T.low T.high
            (map (λ p. shown_range T.rank (λ v. v.now) p.now) items)) iter)) }
    {
        map_of_borrowed(alloc, iter)
    }

    /// Returns the map of an array of pairs, each a key with its value. A later pair replaces an earlier one. Values are moved.
    /// Allocates. If an allocation fails, the pairs are dropped. O(p log p) for p pairs, or O(p) if they ascend.
    ///
    /// ```
    /// RangeMapBlaze::from_array(alloc, [(2, 'b'), (1, 'a'), (2, 'a')])?; // (1..=2, 'a')
    /// ```
    pub fn from_array<const N: usize>(alloc: Global, items: [(T, V); N]) -> Result<Self, AllocError>
        requires { ClonesAreAlike V.is_clone V.eq }
        ensures { IfOk result (IsMade (IsCanonicalOf V.eq T.low T.high
            (map (shown_point T.rank (λ v. v)) items))) }
    {
        let points = Vec::from_array(alloc, items)?;
        let new = Self::from_points(alloc, points)?;
        Ok(new)
    }
}
