//! A cursor over a stream, from its start.
ghost use Rattle.std.specs.Prelude.{◌≡◌, pos, ◌+ℤ◌, ◌<ℤ◌, ◌≤◌, length, [], Some, IfNone, IfOk};
ghost use Rattle.std.specs.Int.{int_max};
ghost use Rattle.std.specs.Option.{option_map};
ghost use Rattle.blaze_entries.specs.Found.{range_in, shown_ends};
ghost use Rattle.blaze_entries.specs.Starts.{first_entry};
ghost use Rattle.blaze_entries.specs.Entries.{at, SameOption};
ghost use Rattle.blaze_entries.specs.Canonical.{IsCanonical};
ghost use Rattle.blaze_entries.specs.Splice.{after};
ghost use Rattle.blaze_streams.specs.Carried.{shown_option, AreOptions, IsItOrCarried};
ghost use Rattle.blaze_streams.specs.Choosing.{ahead_of};
ghost use Rattle.blaze_streams.specs.Cursors.{first_key, steady_to, IsFrom, Reaches, FirstHas};

use crate::carrier::ValueCarrier;
use crate::sorted_disjoint_map::SortedDisjointMap;
use blaze_entries::RangeEntry;
use blaze_int::Integer;
use blaze_int::compare::{greater, is_at_most, is_below};
use std::alloc::AllocError;
use std::marker::Model;
use std::mem;

/// A cursor over a stream: the remaining part of the first range with its carrier, and the stream of the other ranges.
#[derive(Drop)]
pub struct Cursor<T: Integer, VC: ValueCarrier, I: SortedDisjointMap<T, VC>> {
    head: Option<RangeEntry<T, VC>>,
    rest: I,
}

impl<T: Integer, VC: ValueCarrier, I: SortedDisjointMap<T, VC>> Model for Cursor<T, VC, I> {
    ghost use Rattle.std.specs.Prelude.{List, [], IfNone, ◌≡◌};
    ghost use Rattle.std.specs.Coded.{coded_list};
    ghost use Rattle.blaze_entries.specs.Entries.{Entry, entry_code};
    ghost use Rattle.blaze_entries.specs.Canonical.{IsCanonical};
    ghost use Rattle.blaze_streams.specs.Choosing.{ahead_of};

    ghost Value = { List (Entry VC.Value) };

    ghost coded = { coded_list (entry_code VC.Value.code) };

    ghost view = { λ a. ahead_of T.rank VC.shown a.head (I.left a.rest) };

    ghost invariant = { λ a. IfNone a.head (I.left a.rest ≡ [])
        × IsCanonical VC.Value.eq (ahead_of T.rank VC.shown a.head (I.left a.rest)) };
}

/// Takes the first range with its carrier from a stream.
fn take_first<T: Integer, VC: ValueCarrier, I: SortedDisjointMap<T, VC>>(
    stream: &mut I,
) -> Option<RangeEntry<T, VC>>
    ensures left { ahead_of T.rank VC.shown result (I.left stream.new) ≡ I.left stream.old }
    ensures none { IfNone result (I.left stream.new ≡ []) }
{
    let (range, value) = stream.next()?;
    let (start, end) = range.into_inner();
    Some(RangeEntry { start, end, value })
}

// Returns the first key above `end` of the range from `lo` to `hi`, which has one.
fn start_above<T: Integer>(lo: T, hi: T, end: T) -> T
    requires { T.rank end <ℤ T.rank hi }
    ensures { T.rank result ≡ int_max (T.rank end +ℤ pos 1) (T.rank lo) }
{
    hi.in_hand();
    greater(lo, end.add_one())
}

// Skips ranges that end below `key`, if the stream can seek. The part of the stream from `key` on is unchanged.
fn let_go<T: Integer, VC: ValueCarrier, I: SortedDisjointMap<T, VC>>(stream: &mut I, key: T)
    ensures same { after (T.rank key) (I.left stream.new) ≡ after (T.rank key) (I.left stream.old) }
    ensures fewer { length (I.left stream.new) ≤ length (I.left stream.old) }
{
    stream.seek(key);
}

/// The number of ranges after the first that are skipped one by one before a stream seeks.
const STEPS: usize = 3;

/// Takes the ranges up to `end` from a stream and returns the first range above `end`, with its carrier. After a few
/// ranges the stream seeks. The function is not inlined, since `advance` handles the common case itself.
#[inline(never)]
fn take_above<T: Integer, VC: ValueCarrier, I: SortedDisjointMap<T, VC>>(
    stream: &mut I,
    end: T,
) -> Option<RangeEntry<T, VC>>
    ensures left { ahead_of T.rank VC.shown result (I.left stream.new)
        ≡ after (T.rank end) (I.left stream.old) }
    ensures none { IfNone result (I.left stream.new ≡ []) }
{
    let mut steps = STEPS;
    while let Some(mut first) = take_first(stream) {
        if is_below(end, first.end) {
            first.start = start_above(first.start, first.end, end);
            return Some(first);
        }
        if steps > 0 {
            steps -= 1;
        } else if is_below(first.end, end) {
            let_go(stream, end);
        }
    }
    None
}

impl<T: Integer, VC: ValueCarrier, I: SortedDisjointMap<T, VC>> Cursor<T, VC, I> {
    /// Returns a cursor at the start of a stream.
    pub fn new(stream: I) -> Self
        ensures { result ≡ I.left stream }
    {
        stream.in_hand();
        let mut rest = stream;
        let head = take_first(&mut rest);
        Cursor { head, rest }
    }

    /// Returns the first remaining key.
    pub fn first(&self) -> Option<T>
        ensures first { option_map T.rank result ≡ first_key self.now }
        ensures canonical { IsCanonical VC.Value.eq self.now }
    {
        match &self.head {
            None => None,
            Some(head) => Some(head.start),
        }
    }

    /// Returns the first and the last key of the first remaining range.
    pub fn range(&self) -> Option<RangeEntry<T, ()>>
        ensures ends { option_map (shown_ends T.rank) result
            ≡ option_map range_in (first_entry self.now) }
        ensures canonical { IsCanonical VC.Value.eq self.now }
    {
        match &self.head {
            None => None,
            Some(head) => Some(RangeEntry {
                start: head.start,
                end: head.end,
                value: (),
            }),
        }
    }

    /// Returns the last key of the segment from `start` on: the stream is the same at all its keys. It requires that no
    /// key below `start` remains. `None` means that the stream is empty.
    pub fn last(&self, start: T) -> Option<T>
        requires from { IsFrom (T.rank start) self.now }
        ensures { option_map T.rank result ≡ steady_to (T.rank start) self.now }
    {
        match &self.head {
            None => None,
            Some(head) => {
                if is_at_most(head.start, start) {
                    Some(head.end)
                } else {
                    start.in_hand();
                    Some(head.start.sub_one())
                }
            }
        }
    }

    /// Skips the keys up to `end`.
    pub fn advance(&mut self, end: T)
        ensures { self.new ≡ after (T.rank end) self.old }
    {
        let Some(head) = &mut self.head else {
            return;
        };
        if is_below(end, head.end) {
            if is_at_most(head.start, end) {
                head.end.in_hand();
                head.start = end.add_one();
            }
            return;
        }
        let Some(mut next) = take_first(&mut self.rest) else {
            self.head = None;
            return;
        };
        if is_below(end, next.end) {
            next.start = start_above(next.start, next.end, end);
            self.head = Some(next);
            return;
        }
        self.head = take_above(&mut self.rest, end);
    }

    /// Skips the keys up to `end`, which must not be above the end of the first range. O(1) calls of the stream's
    /// `next`.
    pub fn advance_in_first(&mut self, end: T)
        requires reaches { Reaches (T.rank end) self.old }
        ensures { self.new ≡ after (T.rank end) self.old }
    {
        let Some(head) = &mut self.head else {
            return;
        };
        if is_at_most(head.end, end) {
            self.head = take_first(&mut self.rest);
        } else if is_at_most(head.start, end) {
            head.end.in_hand();
            head.start = end.add_one();
        }
    }

    /// Returns the carrier at `key`, which must not be above the end of the first range.
    pub fn here(&self, key: T) -> Option<&VC>
        requires reaches { Reaches (T.rank key) self.now }
        ensures { shown_option (λ c. VC.shown c.now) result ≡ at self.now (T.rank key) }
    {
        match &self.head {
            None => None,
            Some(head) => {
                if is_at_most(head.start, key) {
                    Some(&head.value)
                } else {
                    None
                }
            }
        }
    }

    /// Returns the carrier at `end`, which must not be above the end of the first range, and skips the keys up to
    /// `end`. If the first range ends at `end`, the result is its own carrier, else another one. If an allocation
    /// fails, the keys are still skipped.
    pub fn give(&mut self, end: T) -> Result<Option<VC>, AllocError>
        requires { Reaches (T.rank end) self.old }
        ensures carried { IfOk result (λ given. AreOptions (IsItOrCarried VC.is_carried)
            (at self.old (T.rank end)) (shown_option VC.shown given)) }
        ensures alike { VC.can_carry
            → IfOk result (λ given. SameOption VC.Value.eq (at self.old (T.rank end))
            (shown_option VC.shown given)) }
        ensures rest { self.new ≡ after (T.rank end) self.old }
    {
        let Some(
            RangeEntry {
                start,
                end: last,
                value,
            },
        ) = &mut self.head
        else {
            return Ok(None);
        };
        if is_below(end, *start) {
            return Ok(None);
        }
        if is_below(end, *last) {
            let other = value.carry();
            last.in_hand();
            *start = end.add_one();
            return Ok(Some(other?));
        }
        let next = take_first(&mut self.rest);
        match mem::replace(&mut self.head, next) {
            Some(RangeEntry { value, .. }) => Ok(Some(value)),
            None => unreachable!(),
        }
    }

    /// Returns the carrier at `end`, a key of the first range, and skips the keys up to `end`. If the range ends at
    /// `end`, the result is its own carrier, else another one. If an allocation fails, the keys are still skipped.
    pub fn take(&mut self, end: T) -> Result<VC, AllocError>
        requires can { VC.can_carry }
        requires has { FirstHas (T.rank end) self.old }
        ensures carrier { IfOk result (λ carrier. SameOption VC.Value.eq (at self.old (T.rank end))
            (Some (VC.shown carrier))) }
        ensures rest { self.new ≡ after (T.rank end) self.old }
    {
        match self.give(end)? {
            Some(carrier) => Ok(carrier),
            None => unreachable!(),
        }
    }
}
