//! Changes by many pairs, and by the entries of another map: painted in order.
ghost use Rattle.std.specs.Iterator.{ExtendsWithItems, IsFinite};
ghost use Rattle.std.specs.Prelude.{map, ◌≡◌, [], Ok, OnOk, OnErr};
ghost use Rattle.blaze_streams.specs.Ranges.{shown_range};
ghost use Rattle.blaze_entries.specs.Painted.{ClonesAreAlike};
ghost use Rattle.blaze_table.specs.Work.{IsCounted};
ghost use Rattle.range_map_blaze.specs.Extended.{shown_point, ArePaintedInTurn, IsExtended, IsPairPainted};
ghost use Rattle.range_map_blaze.specs.Extended.{IsPartPaintedInTurn};

use crate::map::RangeMapBlaze;
use crate::pairs::Pair;
use blaze_int::Integer;
use blaze_iters::OwnedRangeValuesIter;
use blaze_streams::{SortedDisjointMap, ValueCarrier};
use blaze_table::RangeEntry;
use std::alloc::AllocError;
use std::ops::RangeInclusive;

impl<T: Integer, V: Eq + Clone> RangeMapBlaze<T, V> {
    /// Sets the values of keys, in order: a later pair replaces an earlier one. Successive pairs whose keys touch or are equal
    /// and whose values are equal are painted as one range.
    ///
    /// Allocates. If an allocation fails, a first part of the pairs is painted, perhaps none, and the others are dropped. O(log
    /// n) for each pair, for n entries.
    ///
    /// ```
    /// map.extend_points([(9, 'a'), (16, 'b'), (17, 'b')])?;
    /// map; // (9..=14, 'a'), (15..=17, 'b'), (30..=39, 'c')
    /// ```
    pub fn extend_points<I: IntoIterator<Item = (T, V)>>(
        &mut self,
        iter: I,
    ) -> Result<(), AllocError>
        requires ends { (it : I.IntoIter) → I.into_iter_gives iter it → I.IntoIter.can_next it
            × IsFinite (I.IntoIter.remaining it) }
        requires clones { ClonesAreAlike V.is_clone V.eq }
        ensures extended { ExtendsWithItems I.into_iter_gives I.IntoIter.next_gives
            (λ old items new. IsExtended V.eq T.low T.high (map (shown_point T.rank (λ v. v)) items)
            old new) iter self.old.entries self.new.entries result }
        ensures counted { IsCounted self.old self.new }
    {
        self.extend_pairs(iter)
    }

    /// Sets the values of ranges, in order: a later pair replaces an earlier one. A pair whose start is above its end has no key.
    /// Successive pairs whose ranges touch or overlap and whose values are equal are painted as one range.
    ///
    /// Allocates. If an allocation fails, a first part of the pairs is painted, perhaps none, and the others are dropped. O(log
    /// n) for each pair and each entry that it touches, for n entries.
    ///
    /// ```
    /// map.extend_ranges([(0..=4, 'f'), (4..=5, 'g')])?;
    /// map; // (0..=3, 'f'), (4..=5, 'g'), (10..=14, 'a'), (15..=15, 'b'), (30..=39, 'c')
    /// ```
    pub fn extend_ranges<I: IntoIterator<Item = (RangeInclusive<T>, V)>>(
        &mut self,
        iter: I,
    ) -> Result<(), AllocError>
        requires ends { (it : I.IntoIter) → I.into_iter_gives iter it → I.IntoIter.can_next it
            × IsFinite (I.IntoIter.remaining it) }
        requires clones { ClonesAreAlike V.is_clone V.eq }
        ensures extended { ExtendsWithItems I.into_iter_gives I.IntoIter.next_gives
            (λ old items new. IsExtended V.eq T.low T.high (map (shown_range T.rank (λ v. v)) items)
            old new) iter self.old.entries self.new.entries result }
        ensures counted { IsCounted self.old self.new }
    {
        self.extend_pairs(iter)
    }

    // Paints keys or ranges, in order. A pair waits until the next one is known, since the two may be painted as one.
    fn extend_pairs<P: Pair<T, V>, I: IntoIterator<Item = P>>(
        &mut self,
        iter: I,
    ) -> Result<(), AllocError>
        requires ends { (it : I.IntoIter) → I.into_iter_gives iter it → I.IntoIter.can_next it
            × IsFinite (I.IntoIter.remaining it) }
        requires clones { ClonesAreAlike V.is_clone V.eq }
        ensures extended { ExtendsWithItems I.into_iter_gives I.IntoIter.next_gives
            (λ old items new. IsExtended V.eq T.low T.high (map P.pair items) old new) iter
            self.old.entries self.new.entries result }
        ensures counted { IsCounted self.old self.new }
    {
        self.in_hand();
        let mut pending = None;
        for item in iter {
            let (start, end, value) = item.parts();
            pending = self.take_pair(pending, RangeEntry { start, end, value })?;
        }
        self.paint_pending(pending)?;
        Ok(())
    }

    /// Sets the values of ranges one by one, in order: a later pair replaces an earlier one. A pair whose start is above its end
    /// has no key. Unlike `extend_ranges`, it joins no pairs before it paints them.
    ///
    /// Allocates. If an allocation fails, a first part of the pairs is painted, perhaps none, and the others are dropped. O(log
    /// n) for each pair and each entry that it touches, for n entries.
    ///
    /// ```
    /// map.extend_simple([(0..=4, 'f'), (4..=5, 'g')])?;
    /// map; // (0..=3, 'f'), (4..=5, 'g'), (10..=14, 'a'), (15..=15, 'b'), (30..=39, 'c')
    /// ```
    pub fn extend_simple<I: IntoIterator<Item = (RangeInclusive<T>, V)>>(
        &mut self,
        iter: I,
    ) -> Result<(), AllocError>
        requires ends { (it : I.IntoIter) → I.into_iter_gives iter it → I.IntoIter.can_next it
            × IsFinite (I.IntoIter.remaining it) }
        requires clones { ClonesAreAlike V.is_clone V.eq }
        ensures extended { ExtendsWithItems I.into_iter_gives I.IntoIter.next_gives
            (λ old items new. ArePaintedInTurn V.eq T.low T.high (map (shown_range T.rank (λ v. v)) items)
            old new) iter self.old.entries self.new.entries result }
        ensures counted { IsCounted self.old self.new }
    {
        self.in_hand();
        for (range, value) in iter {
            let (start, end) = range.into_inner();
            self.paint_pair(RangeEntry { start, end, value })?;
        }
        Ok(())
    }

    /// Paints the entries of `other`, ascending: where both maps have a value, that of `other` remains. Values are moved. An
    /// entry of this map keeps its stored value if no range of `other` touches it, except ranges inside it with an equal value.
    ///
    /// Does not allocate if `other` is empty. If an allocation fails, a first part of the entries is painted, perhaps none, and
    /// the others are dropped. O(log n) for each of the m entries of `other` and each entry that it touches, for n entries.
    ///
    /// ```
    /// map.extend_from(other)?;
    /// map; // (10..=11, 'a'), (12..=15, 'b'), (30..=39, 'c')
    /// ```
    pub fn extend_from(&mut self, other: Self) -> Result<(), AllocError>
        requires { ClonesAreAlike V.is_clone V.eq }
        ensures ok { OnOk result (ArePaintedInTurn V.eq T.low T.high other.entries self.old.entries
            self.new.entries) }
        ensures empty { other.entries ≡ [] → (result ≡ Ok tt) × (self.new ≡ self.old) }
        ensures err { OnErr result
            (IsPartPaintedInTurn V.eq T.low T.high other.entries self.old.entries self.new.entries) }
        ensures counted { IsCounted self.old self.new }
    {
        self.in_hand();
        if other.is_empty() {
            return Ok(());
        }
        self.paint_ranges(OwnedRangeValuesIter::new(other.table))
    }

    /// Paints clones of the entries of `other`, ascending: where both maps have a value, that of `other` remains. An entry of
    /// this map keeps its stored value if no range of `other` touches it, except ranges inside it with an equal value.
    ///
    /// Does not allocate if `other` is empty. If an allocation fails, a first part of the entries is painted, perhaps none. O(log
    /// n) for each of the m entries of `other` and each entry that it touches, for n entries.
    ///
    /// ```
    /// map.extend_with(&other)?;
    /// map; // (10..=11, 'a'), (12..=15, 'b'), (30..=39, 'c')
    /// ```
    pub fn extend_with(&mut self, other: &Self) -> Result<(), AllocError>
        requires { ClonesAreAlike V.is_clone V.eq }
        ensures ok { OnOk result (ArePaintedInTurn V.eq T.low T.high other.now.entries self.old.entries
            self.new.entries) }
        ensures empty { other.now.entries ≡ [] → (result ≡ Ok tt) × (self.new ≡ self.old) }
        ensures err { OnErr result
            (IsPartPaintedInTurn V.eq T.low T.high other.now.entries self.old.entries
            self.new.entries) }
        ensures counted { IsCounted self.old self.new }
    {
        self.in_hand();
        if other.is_empty() {
            return Ok(());
        }
        self.paint_ranges(other.range_values())
    }

    // Paints a range of a stream with its carrier's value. If an allocation fails, the map is unchanged.
    pub(crate) fn paint_range<VC: ValueCarrier<Value = V>>(
        &mut self,
        range: RangeInclusive<T>,
        carrier: VC,
    ) -> Result<(), AllocError>
        requires can { VC.can_carry }
        requires clones { ClonesAreAlike V.is_clone V.eq }
        ensures ok { OnOk result (IsPairPainted V.eq T.low T.high
            (shown_range T.rank VC.shown (range, carrier)) self.old.entries self.new.entries) }
        ensures err { OnErr result (self.new.entries ≡ self.old.entries) }
        ensures counted { IsCounted self.old self.new }
    {
        let (start, end) = range.into_inner();
        let value = carrier.into_value()?;
        self.paint_pair(RangeEntry { start, end, value })
    }

    // Paints the ranges of a stream, ascending. Owned and borrowed entries share this loop.
    pub(crate) fn paint_ranges<VC: ValueCarrier<Value = V>, S: SortedDisjointMap<T, VC>>(
        &mut self,
        ranges: S,
    ) -> Result<(), AllocError>
        requires can { VC.can_carry }
        requires clones { ClonesAreAlike V.is_clone V.eq }
        ensures ok { OnOk result (ArePaintedInTurn V.eq T.low T.high (S.left ranges) self.old.entries
            self.new.entries) }
        ensures err { OnErr result (IsPartPaintedInTurn V.eq T.low T.high (S.left ranges)
            self.old.entries self.new.entries) }
        ensures counted { IsCounted self.old self.new }
    {
        self.in_hand();
        for (range, carrier) in ranges {
            self.paint_range(range, carrier)?;
        }
        Ok(())
    }

    /// Paints the entries of `other`, ascending: where both maps have a value, that of `other` remains. Does what `extend_from`
    /// does, under the name of the operator `|=`, which could not return an error.
    ///
    /// Does not allocate if `other` is empty. If an allocation fails, a first part of the entries is painted, perhaps none, and
    /// the others are dropped. O(log n) for each of the m entries of `other` and each entry that it touches, for n entries.
    ///
    /// ```
    /// map.bitor_assign(other)?;
    /// map; // (10..=11, 'a'), (12..=15, 'b'), (30..=39, 'c')
    /// ```
    pub fn bitor_assign(&mut self, other: Self) -> Result<(), AllocError>
        requires { ClonesAreAlike V.is_clone V.eq }
        ensures ok { OnOk result (ArePaintedInTurn V.eq T.low T.high other.entries self.old.entries
            self.new.entries) }
        ensures empty { other.entries ≡ [] → (result ≡ Ok tt) × (self.new ≡ self.old) }
        ensures err { OnErr result
            (IsPartPaintedInTurn V.eq T.low T.high other.entries self.old.entries self.new.entries) }
        ensures counted { IsCounted self.old self.new }
    {
        self.extend_from(other)
    }

    /// Paints clones of the entries of `other`, ascending: where both maps have a value, that of `other` remains. Does what
    /// `extend_with` does, under the name of the operator `|=`, which could not return an error.
    ///
    /// Does not allocate if `other` is empty. If an allocation fails, a first part of the entries is painted, perhaps none. O(log
    /// n) for each of the m entries of `other` and each entry that it touches, for n entries.
    ///
    /// ```
    /// map.bitor_assign_ref(&other)?;
    /// map; // (10..=11, 'a'), (12..=15, 'b'), (30..=39, 'c')
    /// ```
    pub fn bitor_assign_ref(&mut self, other: &Self) -> Result<(), AllocError>
        requires { ClonesAreAlike V.is_clone V.eq }
        ensures ok { OnOk result (ArePaintedInTurn V.eq T.low T.high other.now.entries self.old.entries
            self.new.entries) }
        ensures empty { other.now.entries ≡ [] → (result ≡ Ok tt) × (self.new ≡ self.old) }
        ensures err { OnErr result
            (IsPartPaintedInTurn V.eq T.low T.high other.now.entries self.old.entries
            self.new.entries) }
        ensures counted { IsCounted self.old self.new }
    {
        self.extend_with(other)
    }

    /// Paints clones of the entries of `other`, ascending, and then empties `other`. Where both maps have a value, that of
    /// `other` remains.
    ///
    /// Does not allocate if `other` is empty. If an allocation fails, `other` is unchanged, and a first part of its entries is
    /// painted, perhaps none. O(log n) for each of the m entries of `other` and each entry that it touches, for n entries; O(m)
    /// to empty `other`.
    ///
    /// ```
    /// map.append(&mut other)?;
    /// map; // (10..=11, 'a'), (12..=15, 'b'), (30..=39, 'c')
    /// other.is_empty(); // true
    /// ```
    pub fn append(&mut self, other: &mut Self) -> Result<(), AllocError>
        requires { ClonesAreAlike V.is_clone V.eq }
        ensures ok { OnOk result (ArePaintedInTurn V.eq T.low T.high other.old.entries self.old.entries
            self.new.entries) }
        ensures emptied { OnOk result (other.new.entries ≡ []) }
        ensures empty { other.old.entries ≡ [] → (result ≡ Ok tt) × (self.new ≡ self.old) }
        ensures err { OnErr result
            (IsPartPaintedInTurn V.eq T.low T.high other.old.entries self.old.entries
            self.new.entries) }
        ensures kept { OnErr result (other.new ≡ other.old) }
        ensures counted { IsCounted self.old self.new }
    {
        self.extend_with(other)?;
        other.clear();
        Ok(())
    }
}
