//! Pairs of a key or a range with an owned or a borrowed value, and maps of lists of them. A list has a first key, a last key and
//! a value for each pair.
ghost use Rattle.std.specs.Iterator.{IsFiniteIterable};
ghost use Rattle.std.specs.Prelude.{◌≡◌, [], ◌∷◌, ◌++◌, map, true, IfOk, OnOk};
ghost use Rattle.blaze_streams.specs.Ranges.{shown_range};
ghost use Rattle.blaze_table.specs.CanonicalOf.{IsCanonicalOf};
ghost use Rattle.blaze_entries.specs.Entries.{Entry, shown_entry, shown_list, SameEntries};
ghost use Rattle.blaze_entries.specs.Painted.{ClonesAreAlike};
ghost use Rattle.range_map_blaze.specs.Collected.{CollectsItems};
ghost use Rattle.range_map_blaze.specs.Extended.{shown_point};
ghost use Rattle.range_map_blaze.specs.Made.{IsMade};

use crate::map::RangeMapBlaze;
use blaze_int::Integer;
use blaze_table::{RangeTable, canonical_of};
use std::alloc::{AllocError, Global};
use std::ops::RangeInclusive;

/// A key or a range with a value.
pub trait Pair<T: Integer, V>: Drop {
    // The pair as an entry.
    ghost pair: { Self → Entry V };

    /// The first key, the last key and the value. A range is read by its start and its end alone.
    fn parts(self) -> (T, T, V)
        ensures { shown_entry T.rank (λ v. v) result ≡ pair self };
}

impl<T: Integer, V: Drop> Pair<T, V> for (T, V) {
    ghost pair = { shown_point T.rank (λ v. v) };

    fn parts(self) -> (T, T, V) {
        let (key, value) = self;
        (key, key, value)
    }
}

impl<T: Integer, V: Drop> Pair<T, V> for (RangeInclusive<T>, V) {
    ghost pair = { shown_range T.rank (λ v. v) };

    fn parts(self) -> (T, T, V) {
        let (range, value) = self;
        let (start, end) = range.into_inner();
        (start, end, value)
    }
}

/// The pairs of an iterable, in order. If an allocation fails, the other pairs are dropped.
pub(crate) fn pairs_of<T: Integer, V: Drop, P: Pair<T, V>, I: IntoIterator<Item = P>>(
    alloc: Global,
    iter: I,
) -> Result<Vec<(T, T, V)>, AllocError>
    requires { IsFiniteIterable I.into_iter_gives I.IntoIter.can_next I.IntoIter.remaining iter }
    ensures { IfOk result (λ pairs. CollectsItems I.into_iter_gives I.IntoIter.next_gives
        (λ items list. shown_list T.rank list ≡ map P.pair items) iter pairs.items) }
{
    let mut pairs = Vec::new(alloc);
    for item in iter {
        pairs.push(item.parts())?;
    }
    Ok(pairs)
}

/// A key or a range with a value, where the pair or its value is borrowed.
pub trait BorrowedPair<'a, T: Integer, V>: Drop {
    // The pair as an entry.
    ghost pair: { Self → Entry V };

    /// The first key, the last key and the value. A range is read by its start and its end alone.
    fn parts(self) -> (T, T, &'a V)
        ensures { shown_entry T.rank (λ v. v.now) result ≡ pair self };
}

impl<'a, T: Integer, V> BorrowedPair<'a, T, V> for (T, &'a V) {
    ghost pair = { shown_point T.rank (λ v. v.now) };

    fn parts(self) -> (T, T, &'a V) {
        let (key, value) = self;
        (key, key, value)
    }
}

impl<'a, T: Integer, V> BorrowedPair<'a, T, V> for &'a (T, V) {
    ghost pair = { λ p. shown_point T.rank (λ v. v) p.now };

    fn parts(self) -> (T, T, &'a V) {
        let (key, value) = self;
        (*key, *key, value)
    }
}

impl<'a, T: Integer, V> BorrowedPair<'a, T, V> for &'a (T, &'a V) {
    ghost pair = { λ p. shown_point T.rank (λ v. v.now) p.now };

    fn parts(self) -> (T, T, &'a V) {
        let (key, value) = self;
        (*key, *key, *value)
    }
}

impl<'a, T: Integer, V> BorrowedPair<'a, T, V> for (RangeInclusive<T>, &'a V) {
    ghost pair = { shown_range T.rank (λ v. v.now) };

    fn parts(self) -> (T, T, &'a V) {
        let (range, value) = self;
        let (start, end) = range.into_inner();
        (start, end, value)
    }
}

impl<'a, T: Integer, V> BorrowedPair<'a, T, V> for &'a (RangeInclusive<T>, V) {
    ghost pair = { λ p. shown_range T.rank (λ v. v) p.now };

    fn parts(self) -> (T, T, &'a V) {
        let (range, value) = self;
        (*range.start(), *range.end(), value)
    }
}

impl<'a, T: Integer, V> BorrowedPair<'a, T, V> for &'a (RangeInclusive<T>, &'a V) {
    ghost pair = { λ p. shown_range T.rank (λ v. v.now) p.now };

    fn parts(self) -> (T, T, &'a V) {
        let (range, value) = self;
        (*range.start(), *range.end(), *value)
    }
}

/// The pairs of an iterable, in order. If an allocation fails, the other pairs are dropped.
pub(crate) fn borrowed_pairs_of<
    'a,
    T: Integer,
    V,
    P: BorrowedPair<'a, T, V>,
    I: IntoIterator<Item = P>,
>(alloc: Global, iter: I) -> Result<Vec<(T, T, &'a V)>, AllocError>
    requires { IsFiniteIterable I.into_iter_gives I.IntoIter.can_next I.IntoIter.remaining iter }
    ensures { IfOk result (λ pairs. CollectsItems I.into_iter_gives I.IntoIter.next_gives
        (λ items list. map (shown_entry T.rank (λ v. v.now)) list
        ≡ map P.pair items) iter pairs.items) }
{
    let mut pairs = Vec::new(alloc);
    for item in iter {
        pairs.push(item.parts())?;
    }
    Ok(pairs)
}

/// The map of pairs painted in order. A value is cloned only if its pair is cut into several pieces.
pub(crate) fn map_of_pairs<T: Integer, V: Eq + Clone>(
    alloc: Global,
    pairs: Vec<(T, T, V)>,
) -> Result<RangeMapBlaze<T, V>, AllocError>
    requires { ClonesAreAlike V.is_clone V.eq }
    ensures { IfOk result (IsMade (IsCanonicalOf V.eq T.low T.high (shown_list T.rank pairs.items))) }
{
    let entries = canonical_of(alloc, pairs)?;
    let table = RangeTable::from_canonical(alloc, entries)?;
    Ok(RangeMapBlaze { table })
}

/// Appends a clone of a value to a list, at the keys from `start` up to `end`.
pub(crate) fn push_clone<T: Integer, V: Eq + Clone>(
    entries: &mut Vec<(T, T, V)>,
    start: T,
    end: T,
    value: &V,
) -> Result<(), AllocError>
    requires { ClonesAreAlike V.is_clone V.eq }
    ensures { OnOk result ((copy : V) × (V.eq value.now copy ≡ true)
        × (entries.new.items ≡ entries.old.items ++ (start, end, copy) ∷ [])) }
{
    entries.push((start, end, value.clone()?))?;
    Ok(())
}

/// Entries with clones of borrowed values.
fn cloned<T: Integer, V: Eq + Clone>(
    alloc: Global,
    borrowed: Vec<(T, T, &V)>,
) -> Result<Vec<(T, T, V)>, AllocError>
    requires { ClonesAreAlike V.is_clone V.eq }
    ensures { IfOk result
        (λ entries. SameEntries V.eq (map (shown_entry T.rank (λ v. v.now)) borrowed.entry.items)
        (shown_list T.rank entries.items)) }
{
    let mut entries = Vec::new(alloc);
    for (start, end, value) in borrowed {
        push_clone(&mut entries, start, end, value)?;
    }
    Ok(entries)
}

/// The map of pairs with borrowed values, painted in order. Only what remains is cloned: the value of each entry.
pub(crate) fn map_of_borrowed_pairs<T: Integer, V: Eq + Clone>(
    alloc: Global,
    pairs: Vec<(T, T, &V)>,
) -> Result<RangeMapBlaze<T, V>, AllocError>
    requires { ClonesAreAlike V.is_clone V.eq }
    ensures { IfOk result (IsMade (IsCanonicalOf V.eq T.low T.high
        (map (shown_entry T.rank (λ v. v.now)) pairs.entry.items))) }
{
    let borrowed = canonical_of(alloc, pairs)?;
    let entries = cloned(alloc, borrowed)?;
    let table = RangeTable::from_canonical(alloc, entries)?;
    Ok(RangeMapBlaze { table })
}
