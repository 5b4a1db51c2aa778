//! The laws of range maps, for every key type and every value type with a lawful equality.
ghost use Rattle.blaze_iters.specs.Left.{pairs_left, shown_key_value};
ghost use Rattle.range_map_blaze.specs.MapLaws.{AnswersAreOnItsKeys};
ghost use Rattle.range_map_cli.specs.Fills.{PaintsAloneAreInOrder, StepsPaintAndFill};
ghost use Rattle.range_map_cli.specs.Laws.{EqualWhereGetsAre, IsOrderOfMaps};
ghost use Rattle.range_map_cli.specs.Laws.{AppendUndoesSplit, CountsAddUp, LookUpsCover};
ghost use Rattle.range_map_cli.specs.Laws.{EachOnce, EachOnceOwned};
ghost use Rattle.range_map_cli.specs.Laws.{UnionIsAssociative, UnionIsIdempotent, UnionIsPainting};
ghost use Rattle.range_map_cli.specs.Laws.{DisjointUnionCommutes, EmptyIsUnit, UniversalKeeps};
ghost use Rattle.range_map_cli.specs.Laws.{PartsHaveItsKeys, SetKeeps, XorWithItselfIsEmpty};

use blaze_int::Integer;
use range_map_blaze::{BothEnds, ValueCarrier};

/// Two maps are `==` exactly if `get` returns equal values, or none, at every key.
pub fn equal_where_gets_are<T: Integer, V: Eq>()
    ensures { EqualWhereGetsAre T.rank V.eq T.low T.high }
{}

/// `cmp` is a total order, and returns `Equal` exactly on equal maps.
pub fn cmp_is_total_order<T: Integer, V: Ord>()
    ensures { IsOrderOfMaps V.eq V.cmp T.low T.high }
{}

/// The counts of `a | b` and `a & b` add up to those of `a` and `b`.
pub fn counts_add_up<T: Integer, V: Eq>()
    ensures { CountsAddUp V.eq T.low T.high }
{}

/// After `split_off`, appending the returned map gives a map equal to the first.
pub fn append_undoes_split<T: Integer, V: Eq>()
    ensures { AppendUndoesSplit V.eq T.low T.high }
{}

/// `range_or_gap_at` at the least key, and then above the end of each result, gives every key once, in order. The value of each
/// result is that of its keys.
pub fn look_ups_cover_keys<T: Integer, V: Eq>()
    ensures { LookUpsCover V.eq T.low T.high }
{}

/// `next` and `next_back`, in any order, give each pair that a key-wise iterator still has once, and then always `None`.
pub fn each_pair_once<T: Integer, VC: ValueCarrier + Copy, I: BothEnds<T, VC>>()
    ensures { EachOnce (shown_key_value VC.shown) (pairs_left T.of_rank I.left) }
{}

/// `next` and `next_back` of an owned iterator, in any order, give each pair once, if no clone fails. Its value is `==` to the
/// stored one. After the last pair, or a failed clone, they always give `None`.
pub fn each_owned_pair_once<T: Integer, V: Eq>()
    ensures { EachOnceOwned T.of_rank V.eq }
{}

/// `transform_values` keeps the keys that have a value, and so `len`.
pub fn transform_values_keeps_keys<T: Integer, V: Eq, W: Eq, F: FnMut(&V) -> W>()
    ensures { AnswersAreOnItsKeys (λ a. a.0.now) F.FnMut W.eq T.low T.high }
{
    range_map_blaze::laws::transform_values_keeps_keys::<T, V, W, F>();
}

/// `a | b` is `a` painted with the entries of `b` in order: in one call, entry by entry, or key by key. All give equal maps, and
/// so do all paths of a union.
pub fn union_is_painting<T: Integer, V: Eq>()
    ensures { UnionIsPainting V.eq T.low T.high }
{}

/// Paints and fills in any order give a key the value of the last painted range that has it. Without such a range, the key keeps
/// its old value. Without an old value, it gets the value of the first filled range that has it. Without fills this is painting
/// in order.
pub fn paints_and_fills_in_any_order<T: Integer, V: Eq>()
    ensures steps { StepsPaintAndFill V T.SafeLen T.rank T.low T.high }
    ensures paints { PaintsAloneAreInOrder V }
{}

/// `(a | b) | c` is `a | (b | c)`.
pub fn union_is_associative<V>()
    ensures { UnionIsAssociative V }
{}

/// `a | a` is `a`.
pub fn union_is_idempotent<V>()
    ensures { UnionIsIdempotent V }
{}

/// `a` with the empty map on either side of `|` is `a`.
pub fn empty_map_is_unit<V>()
    ensures { EmptyIsUnit V }
{}

/// If two maps have no key in common, `a | b` is `b | a`.
pub fn disjoint_union_commutes<V>()
    ensures { DisjointUnionCommutes V }
{}

/// If `u` has a value at every key, `u & a` is `a`, and `a & u` has the values of `u` on the keys of `a`.
pub fn universal_map_keeps<V>()
    ensures { UniversalKeeps V }
{}

/// `a & s` is `a` on the keys of the set, and has no other key.
pub fn set_keeps<V>()
    ensures { SetKeeps V }
{}

/// `a ^ a` is empty.
pub fn xor_with_itself_is_empty<V>()
    ensures { XorWithItselfIsEmpty V }
{}

/// `(a - b) | (a & b)` has the keys of `a`.
pub fn parts_have_its_keys<V>()
    ensures { PartsHaveItsKeys V }
{}
