//! Successive pairs that are joined before they are painted, since one paint costs less than two. A pair whose end is below its
//! start has no key.
ghost use Rattle.std.specs.Prelude.{◌≡◌, ◌<ℤ◌, ◌+ℤ◌, pos, int_le, [], ◌∷◌, ◌++◌, List, None};
ghost use Rattle.std.specs.Prelude.{IfOk, OnOk, OnErr, option_map};
ghost use Rattle.std.specs.Option.{option_to_list};
ghost use Rattle.blaze_entries.specs.Entries.{Entry, shown_range_entry};
ghost use Rattle.blaze_entries.specs.Painted.{ClonesAreAlike};
ghost use Rattle.blaze_table.specs.Work.{IsCounted};
ghost use Rattle.range_map_blaze.specs.Extended.{IsExtended, IsPairPainted};
ghost use Rattle.range_map_blaze.specs.Underway.{are_one_pair, joined_pair, IsUnderway};

use crate::map::RangeMapBlaze;
use blaze_int::Integer;
use blaze_int::compare::{is_at_most, is_below, is_next};
use blaze_table::RangeEntry;
use std::alloc::AllocError;

// Whether a range that starts at `start` touches one that ends at `end`, or starts below its end.
fn reaches<T: Integer>(end: T, start: T) -> bool
    ensures { result ≡ int_le (T.rank start) (T.rank end +ℤ pos 1) }
{
    is_at_most(start, end) || is_next(end, start)
}

// Whether two pairs are painted as one: their ranges touch or overlap, and their values are equal.
fn are_joinable<T: Integer, V: Eq>(pair: &RangeEntry<T, V>, next: &RangeEntry<T, V>) -> bool
    ensures { result ≡ are_one_pair V.eq (shown_range_entry T.rank (λ v. v) pair.now)
        (shown_range_entry T.rank (λ v. v) next.now) }
{
    reaches(pair.end, next.start) && reaches(next.end, pair.start) && pair.value == next.value
}

// One pair from the lesser start to the greater end, with the value of the first.
fn join<T: Integer, V: Drop>(pair: RangeEntry<T, V>, next: RangeEntry<T, V>) -> RangeEntry<T, V>
    ensures { shown_range_entry T.rank (λ v. v) result
        ≡ joined_pair (shown_range_entry T.rank (λ v. v) pair) (shown_range_entry T.rank (λ v. v) next) }
{
    let RangeEntry { start, end, value } = pair;
    let start = if is_below(next.start, start) {
        next.start
    } else {
        start
    };
    let end = if is_below(end, next.end) {
        next.end
    } else {
        end
    };
    RangeEntry { start, end, value }
}

impl<T: Integer, V: Eq + Clone> RangeMapBlaze<T, V> {
    /// Paints a pair; one without a key paints nothing. If an allocation fails, the map is unchanged.
    pub(crate) fn paint_pair(&mut self, pair: RangeEntry<T, V>) -> Result<(), AllocError>
        requires { ClonesAreAlike V.is_clone V.eq }
        ensures ok { OnOk result (IsPairPainted V.eq T.low T.high
            (shown_range_entry T.rank (λ v. v) pair) self.old.entries self.new.entries) }
        ensures err { OnErr result (self.new.entries ≡ self.old.entries) }
        ensures counted { IsCounted self.old self.new }
    {
        self.in_hand();
        let RangeEntry { start, end, value } = pair;
        if is_at_most(start, end) {
            let _ = self.table.paint(start, end, value)?;
        }
        Ok(())
    }

    /// Paints the pending pair, if there is one. If an allocation fails, the map is unchanged.
    pub(crate) fn paint_pending(
        &mut self,
        pending: Option<RangeEntry<T, V>>,
    ) -> Result<(), AllocError>
        requires { ClonesAreAlike V.is_clone V.eq }
        ensures ok { OnOk result
            (IsExtended V.eq T.low T.high
            (option_to_list (option_map (shown_range_entry T.rank (λ v. v)) pending))
            self.old.entries self.new.entries) }
        ensures err { OnErr result (self.new.entries ≡ self.old.entries) }
        ensures counted { IsCounted self.old self.new }
    {
        self.in_hand();
        match pending {
            Some(pair) => self.paint_pair(pair),
            None => Ok(()),
        }
    }

    /// Joins the next pair with the pending one, or paints the pending one. Returns the pair that is pending afterwards: `None`
    /// after a pair without a key. If an allocation fails, the map is unchanged.
    pub(crate) fn take_pair(
        &mut self,
        pending: Option<RangeEntry<T, V>>,
        next: RangeEntry<T, V>,
    ) -> Result<Option<RangeEntry<T, V>>, AllocError>
        requires { ClonesAreAlike V.is_clone V.eq }
        ensures ok { IfOk result (λ left. (pairs old : List (Entry V))
            → IsUnderway V.eq T.low T.high pairs old self.old.entries
            (option_map (shown_range_entry T.rank (λ v. v)) pending)
            → IsUnderway V.eq T.low T.high (pairs ++ shown_range_entry T.rank (λ v. v) next ∷ []) old
            self.new.entries (option_map (shown_range_entry T.rank (λ v. v)) left)) }
        ensures ended { T.rank next.end <ℤ T.rank next.start → IfOk result (λ left. left ≡ None) }
        ensures err { OnErr result (self.new.entries ≡ self.old.entries) }
        ensures counted { IsCounted self.old self.new }
    {
        self.in_hand();
        if is_below(next.end, next.start) {
            self.paint_pending(pending)?;
            return Ok(None);
        }
        let Some(pair) = pending else {
            return Ok(Some(next));
        };
        if are_joinable(&pair, &next) {
            return Ok(Some(join(pair, next)));
        }
        self.paint_pair(pair)?;
        Ok(Some(next))
    }
}
