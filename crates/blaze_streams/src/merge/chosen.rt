//! A merge of two streams by a choice.
ghost use Rattle.std.specs.Prelude.{◌≡◌, ◌≤ℤ◌, [], IfOk, OnOk};
ghost use Rattle.std.specs.Option.{option_map};
ghost use Rattle.blaze_entries.specs.Chosen.{IsChosen};
ghost use Rattle.blaze_entries.specs.Entries.{shown_list};
ghost use Rattle.blaze_streams.specs.Choosing.{PutsAlike};

use crate::carrier::{HasValue, ValueCarrier};
use crate::cursor::Cursor;
use crate::lists::canon_map::CanonMapIter;
use crate::merge::choice::Choice;
use crate::merge::piece_list::PieceList;
use crate::sorted_disjoint_map::SortedDisjointMap;
use blaze_entries::RangeEntry;
use blaze_int::Integer;
use std::alloc::{AllocError, Global};
use std::ops::RangeInclusive;

/// Appends a piece to a list if it has a value. The ends of its range are keys.
fn put_piece<T: Integer, VC: ValueCarrier, P: PieceList<T, VC>>(
    out: &mut P,
    piece: RangeEntry<T, Option<VC>>,
) -> Result<(), AllocError>
    requires { VC.can_carry }
    ensures from { T.low ≤ℤ T.rank piece.start }
    ensures to { T.rank piece.end ≤ℤ T.high }
    ensures put { OnOk result (PutsAlike VC.Value.eq (T.rank piece.start) (T.rank piece.end)
        (option_map VC.shown piece.value) (P.entries out.old) (P.entries out.new)) }
{
    let RangeEntry { start, end, value } = piece;
    start.in_hand();
    end.in_hand();
    if let Some(carrier) = value {
        out.push_piece(start, end, carrier)?;
    }
    Ok(())
}

/// Appends the pieces that are chosen from two streams to an empty list. If an allocation fails, both streams are
/// dropped. O(n + m) with n and m ranges, where each call of a stream counts as O(1).
fn put_chosen<
    T: Integer,
    VCL: ValueCarrier,
    VCR: ValueCarrier,
    L: SortedDisjointMap<T, VCL>,
    R: SortedDisjointMap<T, VCR>,
    C: Choice<VCL, VCR>,
    P: PieceList<T, VCL>,
>(left: L, right: R, choice: &C, out: &mut P) -> Result<(), AllocError>
    requires can { VCL.can_carry }
    requires empty { P.entries out.old ≡ [] }
    ensures { OnOk result (IsChosen VCL.Value.eq T.low T.high C.choice (L.left left) (R.left right)
        (P.entries out.new)) }
{
    let mut left = Cursor::new(left);
    let mut right = Cursor::new(right);
    while let Some(piece) = choice.take(&mut left, &mut right)? {
        put_piece(out, piece)?;
    }
    Ok(())
}

/// Returns the choice between two streams, as a stream. If an allocation fails, both streams are dropped. O(n + m) with
/// n and m ranges, where each call of a stream counts as O(1).
pub fn chosen_of<
    T: Integer,
    VCL: ValueCarrier,
    VCR: ValueCarrier,
    L: SortedDisjointMap<T, VCL>,
    R: SortedDisjointMap<T, VCR>,
    C: Choice<VCL, VCR>,
>(alloc: Global, left: L, right: R, choice: &C) -> Result<CanonMapIter<T, VCL>, AllocError>
    requires { VCL.can_carry }
    ensures { IfOk result (λ stream. IsChosen VCL.Value.eq T.low T.high C.choice (L.left left)
        (R.left right) stream) }
{
    let mut out: Vec<(RangeInclusive<T>, VCL)> = Vec::new(alloc);
    put_chosen(left, right, choice, &mut out)?;
    Ok(CanonMapIter::new(out))
}

/// Returns the choice between two streams, as a list of (first key, last key, value). The list is allocated with
/// capacity for `room` entries. If an allocation or a clone fails, both streams are dropped. O(n + m) with n and m
/// ranges, where each call of a stream counts as O(1).
pub fn entries_chosen_of<
    T: Integer,
    VCL: HasValue,
    VCR: ValueCarrier,
    L: SortedDisjointMap<T, VCL>,
    R: SortedDisjointMap<T, VCR>,
    C: Choice<VCL, VCR>,
>(
    alloc: Global,
    room: usize,
    left: L,
    right: R,
    choice: &C,
) -> Result<Vec<(T, T, VCL::Value)>, AllocError>
    requires { VCL.can_carry }
    ensures { IfOk result (λ entries. IsChosen VCL.Value.eq T.low T.high C.choice (L.left left)
        (R.left right) (shown_list T.rank entries.items)) }
{
    let mut entries: Vec<(T, T, VCL::Value)> = Vec::with_capacity(alloc, room)?;
    put_chosen(left, right, choice, &mut entries)?;
    Ok(entries)
}
