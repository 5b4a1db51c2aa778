//! Choices between the values of two streams at a key.
ghost use Rattle.std.specs.Prelude.{◌≡◌, ℤ, Option, None, refl, IfOk, MatchOption};
ghost use Rattle.std.specs.Option.{option_map, option_xor};
ghost use Rattle.blaze_entries.specs.Canonical.{IsCanonical};
ghost use Rattle.blaze_entries.specs.Entries.{at};
ghost use Rattle.blaze_entries.specs.Chosen.{right_first, left_with_right, left_alone};
ghost use Rattle.blaze_streams.specs.Choosing.{IsTaken};

use crate::carrier::ValueCarrier;
use crate::cursor::Cursor;
use crate::merge::pieces::{take_before, take_both};
use crate::sorted_disjoint_map::SortedDisjointMap;
use blaze_entries::RangeEntry;
use blaze_int::Integer;
use blaze_int::compare::{is_below, lesser};
use std::alloc::AllocError;

/// A choice between the values of two streams at a key.
pub trait Choice<VCL: ValueCarrier, VCR: ValueCarrier> {
    // The chosen value.
    ghost choice: { Option VCL.Value → Option VCR.Value → Option VCL.Value };

    /// Takes the first piece from two streams: its first key, its last key, and a carrier of the chosen value. The
    /// carrier is `None` if the choice has no value on these keys. Both cursors skip the keys up to the piece's end.
    /// The result is `None` if the choice has no value on any remaining key.
    fn take<T: Integer, L: SortedDisjointMap<T, VCL>, R: SortedDisjointMap<T, VCR>>(
        &self,
        left: &mut Cursor<T, VCL, L>,
        right: &mut Cursor<T, VCR, R>,
    ) -> Result<Option<RangeEntry<T, Option<VCL>>>, AllocError>
        requires { VCL.can_carry }
        ensures left { IsCanonical VCL.Value.eq left.old }
        ensures right { IsCanonical VCR.Value.eq right.old }
        ensures taken { IfOk result (λ taken. MatchOption taken
            ((k : ℤ) → choice (at left.old k) (at right.old k) ≡ None)
            (λ piece. IsTaken VCL.Value.eq choice left.old left.new right.old right.new
            (T.rank piece.start) (T.rank piece.end) (option_map VCL.shown piece.value))) };

    // The choice has no value where neither stream has one.
    ghost from_nothing: { choice None None ≡ None };
}

/// Chooses the right value if it exists, else the left.
pub struct RightFirst;

impl<VC: ValueCarrier> Choice<VC, VC> for RightFirst {
    ghost choice = { right_first };

    fn take<T: Integer, L: SortedDisjointMap<T, VC>, R: SortedDisjointMap<T, VC>>(
        &self,
        left: &mut Cursor<T, VC, L>,
        right: &mut Cursor<T, VC, R>,
    ) -> Result<Option<RangeEntry<T, Option<VC>>>, AllocError> {
        if let Some(piece) = take_before(left, right)? {
            return Ok(Some(piece));
        }
        let Some(RangeEntry { start, end, .. }) = right.range() else {
            return Ok(None);
        };
        let carrier = right.take(end)?;
        left.advance(end);
        Ok(Some(RangeEntry {
            start,
            end,
            value: Some(carrier),
        }))
    }

    ghost from_nothing = { refl };
}

/// Chooses the only value if exactly one exists.
pub struct ExactlyOne;

impl<VC: ValueCarrier> Choice<VC, VC> for ExactlyOne {
    ghost choice = { option_xor };

    fn take<T: Integer, L: SortedDisjointMap<T, VC>, R: SortedDisjointMap<T, VC>>(
        &self,
        left: &mut Cursor<T, VC, L>,
        right: &mut Cursor<T, VC, R>,
    ) -> Result<Option<RangeEntry<T, Option<VC>>>, AllocError> {
        if let Some(piece) = take_before(left, right)? {
            return Ok(Some(piece));
        }
        if let Some(other) = take_before(right, left)? {
            return Ok(Some(other));
        }
        let (Some(ours), Some(theirs)) = (left.range(), right.range()) else {
            return Ok(None);
        };
        let end = lesser(ours.end, theirs.end);
        left.advance_in_first(end);
        right.advance_in_first(end);
        Ok(Some(RangeEntry {
            start: ours.start,
            end,
            value: None,
        }))
    }

    ghost from_nothing = { refl };
}

/// Chooses the left value if the right exists too.
pub struct LeftWithRight;

impl<VCL: ValueCarrier, VCR: ValueCarrier> Choice<VCL, VCR> for LeftWithRight {
    ghost choice = { left_with_right };

    fn take<T: Integer, L: SortedDisjointMap<T, VCL>, R: SortedDisjointMap<T, VCR>>(
        &self,
        left: &mut Cursor<T, VCL, L>,
        right: &mut Cursor<T, VCR, R>,
    ) -> Result<Option<RangeEntry<T, Option<VCL>>>, AllocError> {
        take_both(left, right)
    }

    ghost from_nothing = { refl };
}

/// Chooses the left value if the right does not exist. A right stream that lags skips all keys below the left one.
pub struct LeftAlone;

impl<VCL: ValueCarrier, VCR: ValueCarrier> Choice<VCL, VCR> for LeftAlone {
    ghost choice = { left_alone };

    fn take<T: Integer, L: SortedDisjointMap<T, VCL>, R: SortedDisjointMap<T, VCR>>(
        &self,
        left: &mut Cursor<T, VCL, L>,
        right: &mut Cursor<T, VCR, R>,
    ) -> Result<Option<RangeEntry<T, Option<VCL>>>, AllocError> {
        if let Some(piece) = take_before(left, right)? {
            return Ok(Some(piece));
        }
        let (Some(ours), Some(theirs)) = (left.range(), right.range()) else {
            return Ok(None);
        };
        if is_below(theirs.end, ours.start) {
            theirs.end.in_hand();
            let end = ours.start.sub_one();
            right.advance(end);
            return Ok(Some(RangeEntry {
                start: theirs.start,
                end,
                value: None,
            }));
        }
        right.advance_in_first(theirs.end);
        left.advance(theirs.end);
        Ok(Some(RangeEntry {
            start: theirs.start,
            end: theirs.end,
            value: None,
        }))
    }

    ghost from_nothing = { refl };
}
