//! An iterator over the keys of an owned table, each with its value.
ghost use Rattle.std.specs.Prelude.{◌≡◌, ◌≤◌, [], length, None, IfSome, IfNone, unwrap_or};
ghost use Rattle.std.specs.Iterator.{YieldsFirstBy, YieldsLastBy, item_count, UpTo};
ghost use Rattle.std.specs.Iterator.SizeHint.{IsWithinCount};
ghost use Rattle.blaze_entries.specs.Entries.{shown_range_entry};
ghost use Rattle.blaze_entries.specs.Painted.{ClonesAreAlike};
ghost use Rattle.blaze_entries.specs.Pairs.{pair_list};
ghost use Rattle.blaze_iters.specs.Left.{unopened, shown_left, OpensFirst, OpensLast};
ghost use Rattle.blaze_iters.specs.Left.{YieldsOpeningFirst, YieldsOpeningLast, pairs_left};
ghost use Rattle.blaze_iters.specs.Left.{keys_left};
ghost use Rattle.blaze_iters.specs.Owned.{OwnedLeft, owned_ranges, IsOwned, GivesFirst, GivesLast};
ghost use Rattle.blaze_iters.specs.Owned.{IsLikePair, GivesFirstOrRefuses, GivesLastOrRefuses};

use crate::rest::{first_cloned, first_key, last_cloned, last_key};
use blaze_int::Integer;
use blaze_table::{IntoIter, RangeEntry, RangeTable};
use std::alloc::AllocError;
use std::iter::FusedIterator;
use std::marker::Model;

/// An iterator over the keys of an owned table, ascending, each with its value. It is double-ended. The value is cloned
/// for each key of a range except the one that is yielded last, which gets the stored value. If a clone fails, the
/// iterator yields the error and then ends. All keys take O(n + k) time and at most k clones, with n entries and k
/// keys.
#[derive(Drop)]
pub struct IntoIterMap<T: Integer, V> {
    front: Option<RangeEntry<T, V>>,
    inner: Option<IntoIter<T, V>>,
    back: Option<RangeEntry<T, V>>,
}

impl<T: Integer, V> Model for IntoIterMap<T, V> {
    ghost use Rattle.std.specs.Prelude.{[], unwrap_or};
    ghost use Rattle.blaze_iters.specs.Left.{shown_left};
    ghost use Rattle.blaze_iters.specs.Owned.{OwnedLeft, IsOwned};

    ghost Value = { OwnedLeft V };

    ghost view = { λ s. shown_left T.rank (λ v. v) s.front (unwrap_or s.inner []) s.back };

    ghost invariant = { λ s. IsOwned (shown_left T.rank (λ v. v) s.front (unwrap_or s.inner []) s.back) };
}

impl<T: Integer, V: Eq + Drop> IntoIterMap<T, V> {
    /// Returns an iterator over the keys of a table, with their values. It allocates nothing.
    pub fn new(table: RangeTable<T, V>) -> Self
        ensures unopened { result ≡ unopened table.entries }
        ensures pairs { pairs_left T.of_rank (λ es. es) result ≡ pair_list T.of_rank table.entries }
    {
        table.in_hand();
        IntoIterMap {
            front: None,
            inner: Some(table.into_iter()),
            back: None,
        }
    }

    /// Returns the number of ranges of which no key was yielded.
    pub(crate) fn unopened_len(&self) -> usize
        ensures value { result ≡ length self.now.inner }
        ensures bound { result ≤ length (pairs_left T.of_rank (λ es. es) self.now) }
    {
        match &self.inner {
            Some(ranges) => ranges.len(),
            None => 0,
        }
    }

    /// Drops all that remains.
    fn end(&mut self)
        ensures { self.new ≡ unopened [] }
    {
        self.front = None;
        self.inner = None;
        self.back = None;
    }

    /// Takes the first remaining key and clones no value.
    pub(crate) fn next_key(&mut self) -> Option<T>
        ensures { YieldsOpeningFirst (λ es. es) (λ k. k) (keys_left T.of_rank (λ es. es))
            self.old result self.new }
    {
        if let Some(key) = first_key(&mut self.front) {
            return Some(key);
        }
        self.front = take_first(&mut self.inner, &mut self.back);
        first_key(&mut self.front)
    }

    /// Takes the last remaining key and clones no value.
    pub(crate) fn next_back_key(&mut self) -> Option<T>
        ensures { YieldsOpeningLast (λ es. es) (λ k. k) (keys_left T.of_rank (λ es. es))
            self.old result self.new }
    {
        if let Some(key) = last_key(&mut self.back) {
            return Some(key);
        }
        self.back = take_last(&mut self.front, &mut self.inner);
        last_key(&mut self.back)
    }
}

impl<T: Integer, V: Eq + Clone> IntoIterMap<T, V> {
    /// Takes the first remaining key with its value or a clone of it. If the clone fails, nothing is taken.
    #[inline(always)]
    fn take_first_pair(&mut self) -> Option<Result<(T, V), AllocError>>
        requires { ClonesAreAlike V.is_clone V.eq }
        ensures { GivesFirstOrRefuses (pairs_left T.of_rank (λ es. es)) (IsLikePair V.eq)
            self.old result self.new }
    {
        if let Some(given) = first_cloned(&mut self.front) {
            return Some(given);
        }
        self.front = take_first(&mut self.inner, &mut self.back);
        first_cloned(&mut self.front)
    }

    /// Takes the last remaining key with its value or a clone of it. If the clone fails, nothing is taken.
    #[inline(always)]
    fn take_last_pair(&mut self) -> Option<Result<(T, V), AllocError>>
        requires { ClonesAreAlike V.is_clone V.eq }
        ensures { GivesLastOrRefuses (pairs_left T.of_rank (λ es. es)) (IsLikePair V.eq)
            self.old result self.new }
    {
        if let Some(given) = last_cloned(&mut self.back) {
            return Some(given);
        }
        self.back = take_last(&mut self.front, &mut self.inner);
        last_cloned(&mut self.back)
    }
}

impl<T: Integer, V: Eq + Clone> Iterator for IntoIterMap<T, V> {
    type Item = Result<(T, V), AllocError>;

    ghost can_next = { λ _. ClonesAreAlike V.is_clone V.eq };

    ghost next_gives = { GivesFirst (pairs_left T.of_rank (λ es. es)) (IsLikePair V.eq) };

    ghost remaining = { item_count (pairs_left T.of_rank (λ es. es)) };

    fn next(&mut self) -> Option<Result<(T, V), AllocError>> {
        match self.take_first_pair()? {
            Ok(pair) => Some(Ok(pair)),
            Err(refused) => {
                self.end();
                Some(Err(refused))
            }
        }
    }

    /// Returns the number of ranges of which no key was yielded as the lower bound, and no upper bound. After a failed
    /// clone the lower bound is 0. O(1).
    fn size_hint(&self) -> (usize, Option<usize>)
        ensures lower { IsWithinCount result.0
            (item_count (pairs_left T.of_rank (λ es. es)) self.now) }
        ensures upper { IfSome result.1
            (UpTo (item_count (pairs_left T.of_rank (λ es. es)) self.now)) }
        ensures hint { result ≡ (length self.now.inner, None) }
    {
        (self.unopened_len(), None)
    }
}

impl<T: Integer, V: Eq + Clone> DoubleEndedIterator for IntoIterMap<T, V> {
    ghost can_next_back = { λ _. ClonesAreAlike V.is_clone V.eq };

    ghost next_back_gives = { GivesLast (pairs_left T.of_rank (λ es. es)) (IsLikePair V.eq) };

    fn next_back(&mut self) -> Option<Result<(T, V), AllocError>> {
        match self.take_last_pair()? {
            Ok(pair) => Some(Ok(pair)),
            Err(refused) => {
                self.end();
                Some(Err(refused))
            }
        }
    }
}

impl<T: Integer, V: Eq + Clone> FusedIterator for IntoIterMap<T, V> {}

/// Takes the first range of which no key was yielded.
fn first_whole<T: Integer, V: Drop>(inner: &mut Option<IntoIter<T, V>>) -> Option<RangeEntry<T, V>>
    ensures { YieldsFirstBy (shown_range_entry T.rank (λ v. v)) (λ s. unwrap_or s [])
        inner.old result inner.new }
{
    match inner {
        Some(ranges) => {
            let (start, end, value) = ranges.next()?;
            Some(RangeEntry { start, end, value })
        }
        None => None,
    }
}

/// Takes the last range of which no key was yielded.
fn last_whole<T: Integer, V: Drop>(inner: &mut Option<IntoIter<T, V>>) -> Option<RangeEntry<T, V>>
    ensures { YieldsLastBy (shown_range_entry T.rank (λ v. v)) (λ s. unwrap_or s [])
        inner.old result inner.new }
{
    match inner {
        Some(ranges) => {
            let (start, end, value) = ranges.next_back()?;
            Some(RangeEntry { start, end, value })
        }
        None => None,
    }
}

/// Takes the first remaining range, if none is open at the front. It is the first unopened one, or else the one that is
/// open at the back.
fn take_first<T: Integer, V: Drop>(
    inner: &mut Option<IntoIter<T, V>>,
    back: &mut Option<RangeEntry<T, V>>,
) -> Option<RangeEntry<T, V>>
    requires { IsOwned (shown_left T.rank (λ v. v) None (unwrap_or inner.old []) back.old) }
    ensures left { owned_ranges (shown_left T.rank (λ v. v) None (unwrap_or inner.old []) back.old)
        ≡ owned_ranges (shown_left T.rank (λ v. v) result (unwrap_or inner.new []) back.new) }
    ensures owned { IsOwned (shown_left T.rank (λ v. v) result (unwrap_or inner.new []) back.new) }
    ensures opens { OpensFirst (λ es. es)
        (shown_left T.rank (λ v. v) None (unwrap_or inner.old []) back.old)
        (shown_left T.rank (λ v. v) None (unwrap_or inner.new []) back.new) }
    ensures none { IfNone result
        (owned_ranges (shown_left T.rank (λ v. v) None (unwrap_or inner.new []) back.new) ≡ []) }
{
    match first_whole(inner) {
        Some(first) => Some(first),
        None => back.take(),
    }
}

/// Takes the last remaining range, if none is open at the back. It is the last unopened one, or else the one that is
/// open at the front.
fn take_last<T: Integer, V: Drop>(
    front: &mut Option<RangeEntry<T, V>>,
    inner: &mut Option<IntoIter<T, V>>,
) -> Option<RangeEntry<T, V>>
    requires { IsOwned (shown_left T.rank (λ v. v) front.old (unwrap_or inner.old []) None) }
    ensures left { owned_ranges (shown_left T.rank (λ v. v) front.old (unwrap_or inner.old []) None)
        ≡ owned_ranges (shown_left T.rank (λ v. v) front.new (unwrap_or inner.new []) result) }
    ensures owned { IsOwned (shown_left T.rank (λ v. v) front.new (unwrap_or inner.new []) result) }
    ensures opens { OpensLast (λ es. es)
        (shown_left T.rank (λ v. v) front.old (unwrap_or inner.old []) None)
        (shown_left T.rank (λ v. v) front.new (unwrap_or inner.new []) None) }
    ensures none { IfNone result
        (owned_ranges (shown_left T.rank (λ v. v) front.new (unwrap_or inner.new []) None) ≡ []) }
{
    match last_whole(inner) {
        Some(last) => Some(last),
        None => front.take(),
    }
}
