//! The keys of a map as ranges, without the values.
ghost use Rattle.std.specs.Prelude.{◌≡◌, refl, length, min, None, IfSome};
ghost use Rattle.std.specs.Iterator.{item_count, UpTo};
ghost use Rattle.std.specs.Iterator.SizeHint.{IsWithinCount};
ghost use Rattle.blaze_iters.specs.KeyRanges.{AreKeyRanges, TakesEnds, TakesLastEnds, ranges_then};
ghost use Rattle.blaze_entries.specs.Canonical.{IsRangeMap};
ghost use Rattle.blaze_entries.specs.RangeSets.{shown_bare_range};
ghost use Rattle.blaze_entries.specs.Whole.{YieldsWholeFirst, YieldsWholeLast};

use crate::tables::entry_ends::EntryEnds;
use blaze_entries::SortedDisjoint;
use blaze_int::Integer;
use blaze_int::compare::is_next;
use blaze_table::{IntoIter, Iter, RangeTable};
use std::iter::FusedIterator;
use std::marker::Model;
use std::ops::RangeInclusive;

/// An iterator over the ranges of the entries' keys, ascending. It is double-ended. Touching ranges are joined,
/// whatever their values.
#[derive(Drop)]
pub struct KeyRanges<T: Integer, I: EntryEnds<T>> {
    // The first remaining range, which the next entries may extend. `None` if no range remains.
    open: Option<(T, T)>,
    entries: I,
    // The range of the last remaining entry, if it was already taken from the entries. Their last one may end right
    // below it.
    back: Option<(T, T)>,
}

/// An iterator over the key ranges of a borrowed table.
pub type MapRangesIter<'a, T, V> = KeyRanges<T, Iter<'a, T, V>>;

/// An iterator over the key ranges of an owned table.
pub type MapIntoRangesIter<T, V> = KeyRanges<T, IntoIter<T, V>>;

impl<T: Integer, I: EntryEnds<T>> Model for KeyRanges<T, I> {
    ghost use Rattle.std.specs.Prelude.{List};
    ghost use Rattle.std.specs.Coded.{coded_list};
    ghost use Rattle.blaze_entries.specs.Entries.{Entry};
    ghost use Rattle.blaze_iters.specs.KeyRanges.{joined_left, ranges_then};
    ghost use Rattle.blaze_entries.specs.RangeSets.{bare_code, IsRangeSet};

    ghost Value = { List (Entry (Unit {0})) };

    ghost coded = { coded_list bare_code };

    ghost view = { λ s. joined_left T.rank s.open (ranges_then T.rank (I.left s.entries) s.back) };

    ghost invariant = { λ s. IsRangeSet T.low T.high
        (joined_left T.rank s.open (ranges_then T.rank (I.left s.entries) s.back)) };
}

impl<T: Integer, I: EntryEnds<T>> KeyRanges<T, I> {
    // Returns an iterator over the key ranges of a range map's entries.
    fn of_entries(entries: I) -> Self
        requires { IsRangeMap I.Value.eq T.low T.high (I.left entries) }
        ensures { AreKeyRanges T.low T.high (I.left entries) result }
    {
        let mut entries = entries;
        let open = entries.next_ends();
        KeyRanges {
            open,
            entries,
            back: None,
        }
    }
}

// Takes the first of the entries, or of the range after them, and returns its first and last key.
fn first_ends<T: Integer, I: EntryEnds<T>>(
    entries: &mut I,
    back: &mut Option<(T, T)>,
) -> Option<(T, T)>
    ensures { TakesEnds T.rank result (ranges_then T.rank (I.left entries.old) back.old)
        (ranges_then T.rank (I.left entries.new) back.new) }
{
    match entries.next_ends() {
        Some(ends) => Some(ends),
        None => back.take(),
    }
}

// Takes the last of the entries and of the range after them, and returns its first and last key. Afterwards no range
// follows the entries.
fn last_ends<T: Integer, I: EntryEnds<T>>(
    entries: &mut I,
    back: &mut Option<(T, T)>,
) -> Option<(T, T)>
    ensures taken { TakesLastEnds T.rank result (ranges_then T.rank (I.left entries.old) back.old)
        (ranges_then T.rank (I.left entries.new) back.new) }
    ensures none { back.new ≡ None }
{
    match back.take() {
        Some(ends) => Some(ends),
        None => entries.next_ends_back(),
    }
}

impl<'a, T: Integer, V: Eq> MapRangesIter<'a, T, V> {
    /// Returns an iterator over the key ranges of a borrowed table. It allocates nothing. All ranges take O(n) time
    /// with n entries.
    pub fn new(table: &'a RangeTable<T, V>) -> Self
        ensures { AreKeyRanges T.low T.high table.now.entries result }
    {
        table.in_hand();
        KeyRanges::of_entries(table.iter())
    }
}

impl<T: Integer, V: Eq + Drop> MapIntoRangesIter<T, V> {
    /// Returns an iterator over the key ranges of an owned table. It allocates nothing. All ranges take O(n) time with
    /// n entries.
    pub fn new(table: RangeTable<T, V>) -> Self
        ensures { AreKeyRanges T.low T.high table.entries result }
    {
        table.in_hand();
        KeyRanges::of_entries(table.into_iter())
    }
}

/// Returns an iterator over the key ranges of a borrowed table. It allocates nothing. All ranges take O(n) time with n
/// entries.
pub fn ranges_of<T: Integer, V: Eq>(table: &RangeTable<T, V>) -> MapRangesIter<'_, T, V>
    ensures { AreKeyRanges T.low T.high table.now.entries result }
{
    MapRangesIter::new(table)
}

/// Returns an iterator over the key ranges of an owned table. It allocates nothing. All ranges take O(n) time with n
/// entries.
pub fn into_ranges_of<T: Integer, V: Eq + Drop>(table: RangeTable<T, V>) -> MapIntoRangesIter<T, V>
    ensures { AreKeyRanges T.low T.high table.entries result }
{
    MapIntoRangesIter::new(table)
}

impl<T: Integer, I: EntryEnds<T>> Iterator for KeyRanges<T, I> {
    type Item = RangeInclusive<T>;

    ghost next_gives = { YieldsWholeFirst (λ r. r) (shown_bare_range T.rank) (λ s. s) };

    ghost remaining = { item_count (λ s. s) };

    #[tactic(auto, unfolding(blaze_entries::specs::Canonical::IsRunStart, blaze_entries::specs::Canonical::IsRunEnd))]
    fn next(&mut self) -> Option<RangeInclusive<T>> {
        let (start, mut end) = self.open.take()?;
        while let Some((next_start, next_end)) = first_ends(&mut self.entries, &mut self.back) {
            if !is_next(end, next_start) {
                self.open = Some((next_start, next_end));
                return Some(start..=end);
            }
            end = next_end;
        }
        Some(start..=end)
    }

    /// Returns 1 as the lower bound if a range remains, else 0, and no upper bound. The number of touching entries is
    /// not known in advance. O(1).
    fn size_hint(&self) -> (usize, Option<usize>)
        ensures lower { IsWithinCount result.0 (item_count (λ s. s) self.now) }
        ensures upper { IfSome result.1 (UpTo (item_count (λ s. s) self.now)) }
        ensures exact { result ≡ (min 1 (length self.now), None) }
    {
        match &self.open {
            Some(_) => (1, None),
            None => (0, None),
        }
    }
}

impl<T: Integer, I: EntryEnds<T>> DoubleEndedIterator for KeyRanges<T, I> {
    ghost next_back_gives = { YieldsWholeLast (λ r. r) (shown_bare_range T.rank) (λ s. s) };

    #[tactic(auto, unfolding(blaze_entries::specs::Canonical::IsRunStart, blaze_entries::specs::Canonical::IsRunEnd))]
    fn next_back(&mut self) -> Option<RangeInclusive<T>> {
        let (first, first_end) = self.open?;
        let Some((mut start, end)) = last_ends(&mut self.entries, &mut self.back) else {
            self.open = None;
            return Some(first..=first_end);
        };
        while let Some(previous) = self.entries.next_ends_back() {
            if !is_next(previous.1, start) {
                self.back = Some(previous);
                return Some(start..=end);
            }
            start = previous.0;
        }
        if is_next(first_end, start) {
            self.open = None;
            return Some(first..=end);
        }
        Some(start..=end)
    }
}

impl<T: Integer, I: EntryEnds<T>> FusedIterator for KeyRanges<T, I> {}

impl<T: Integer, I: EntryEnds<T>> SortedDisjoint<T> for KeyRanges<T, I> {
    ghost left = { λ s. s };

    ghost least = { λ s. min 1 (length s) };

    fn in_hand(&self) {
        let _ = &self.open;
    }

    fn least_len(&self) -> usize {
        self.size_hint().0
    }

    ghost ready = { λ _. tt };

    ghost counted = { λ _. refl };

    ghost gives = { λ _ _ _ given. given.0 };
}
