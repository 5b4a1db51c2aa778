//! Pieces of two streams: ranges of keys with the same choice.
ghost use Rattle.std.specs.Prelude.{◌≡◌, None, IfOk, MatchOption, ℤ};
ghost use Rattle.std.specs.Option.{option_map};
ghost use Rattle.blaze_entries.specs.Canonical.{IsCanonical};
ghost use Rattle.blaze_entries.specs.Chosen.{left_with_right};
ghost use Rattle.blaze_entries.specs.Entries.{at};
ghost use Rattle.blaze_streams.specs.Choosing.{IsTaken, IsTakenAlone};
ghost use Rattle.blaze_streams.specs.Cursors.{first_key, lesser};

use crate::carrier::ValueCarrier;
use crate::cursor::Cursor;
use crate::sorted_disjoint_map::SortedDisjointMap;
use blaze_entries::RangeEntry;
use blaze_int::{Integer, compare};
use std::alloc::AllocError;

/// Takes the part of a stream's first range below the first key of the other stream. The result has its first key, its
/// last key and a carrier of its value. If the other stream starts at the same key or below, nothing is taken.
pub fn take_before<
    T: Integer,
    VC: ValueCarrier,
    VCO: ValueCarrier,
    I: SortedDisjointMap<T, VC>,
    O: SortedDisjointMap<T, VCO>,
>(
    cursor: &mut Cursor<T, VC, I>,
    other: &Cursor<T, VCO, O>,
) -> Result<Option<RangeEntry<T, Option<VC>>>, AllocError>
    requires { VC.can_carry }
    ensures cursor { IsCanonical VC.Value.eq cursor.old }
    ensures other { IsCanonical VCO.Value.eq other.now }
    ensures taken { IfOk result (λ taken. MatchOption taken ((cursor.new ≡ cursor.old)
        × (lesser (first_key other.now) (first_key cursor.old) ≡ first_key other.now))
        (λ piece. IsTakenAlone VC.Value.eq cursor.old cursor.new other.now (T.rank piece.start)
        (T.rank piece.end) (option_map VC.shown piece.value))) }
{
    let bound = other.first();
    let Some(
        RangeEntry {
            start,
            end: last,
            ..
        },
    ) = cursor.range()
    else {
        return Ok(None);
    };
    let end = match bound {
        None => last,
        Some(bound) => {
            if compare::is_at_most(bound, start) {
                return Ok(None);
            }
            start.in_hand();
            compare::lesser(last, bound.sub_one())
        }
    };
    let carrier = cursor.take(end)?;
    Ok(Some(RangeEntry {
        start,
        end,
        value: Some(carrier),
    }))
}

/// Takes the keys that the first ranges of two streams share: the first key, the last key and a carrier of the left
/// value. If one range ends below the other, its cursor skips all keys below the other, and the piece has no carrier.
/// If a stream is empty, nothing is taken.
pub fn take_both<
    T: Integer,
    VCL: ValueCarrier,
    VCR: ValueCarrier,
    L: SortedDisjointMap<T, VCL>,
    R: SortedDisjointMap<T, VCR>,
>(
    left: &mut Cursor<T, VCL, L>,
    right: &mut Cursor<T, VCR, R>,
) -> Result<Option<RangeEntry<T, Option<VCL>>>, AllocError>
    requires { VCL.can_carry }
    ensures left { IsCanonical VCL.Value.eq left.old }
    ensures right { IsCanonical VCR.Value.eq right.old }
    ensures taken { IfOk result (λ taken. MatchOption taken
        ((k : ℤ) → left_with_right (at left.old k) (at right.old k) ≡ None)
        (λ piece. IsTaken VCL.Value.eq left_with_right left.old left.new right.old right.new
        (T.rank piece.start) (T.rank piece.end) (option_map VCL.shown piece.value))) }
{
    let (Some(ours), Some(theirs)) = (left.range(), right.range()) else {
        return Ok(None);
    };
    if compare::is_below(ours.end, theirs.start) {
        ours.end.in_hand();
        let end = theirs.start.sub_one();
        left.advance(end);
        return Ok(Some(RangeEntry {
            start: ours.start,
            end,
            value: None,
        }));
    }
    if compare::is_below(theirs.end, ours.start) {
        theirs.end.in_hand();
        let end = ours.start.sub_one();
        right.advance(end);
        return Ok(Some(RangeEntry {
            start: theirs.start,
            end,
            value: None,
        }));
    }
    let first = compare::greater(ours.start, theirs.start);
    let end = compare::lesser(ours.end, theirs.end);
    let carrier = left.take(end)?;
    right.advance_in_first(end);
    Ok(Some(RangeEntry {
        start: first,
        end,
        value: Some(carrier),
    }))
}
