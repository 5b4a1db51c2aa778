//! With two maps, the operations between many are those between two.
ghost use Rattle.blaze_streams.specs.JoinAnswers.{either, both};
ghost use Rattle.range_map_multi.specs.ManyJoins.{shown_row, shown_full_row};
ghost use Rattle.range_map_multi.specs.ManyLaws.{UnionOfTwoIsOr, IntersectionOfTwoIsAnd};
ghost use Rattle.range_map_multi.specs.ManyLaws.{SymmetricDifferenceOfTwoIsXor};
ghost use Rattle.range_map_multi.specs.ManyLaws.{InnerJoinOfTwoIsInnerJoin};
ghost use Rattle.range_map_multi.specs.ManyLaws.{FullJoinOfTwoIsFullJoin};

use blaze_int::Integer;

/// `union` of two maps is `|`.
pub fn union_of_two_is_or<T: Integer, V: Eq>()
    ensures { UnionOfTwoIsOr V.eq T.low T.high }
{}

/// `intersection` of two maps is `&`.
pub fn intersection_of_two_is_and<T: Integer, V: Eq>()
    ensures { IntersectionOfTwoIsAnd V.eq T.low T.high }
{}

/// `symmetric_difference` of two maps is `^`.
pub fn symmetric_difference_of_two_is_xor<T: Integer, V: Eq>()
    ensures { SymmetricDifferenceOfTwoIsXor V.eq T.low T.high }
{}

/// `inner_join` of two maps has the ranges of `inner_join` of one with the other, with equal values, if their closures return the
/// same.
pub fn inner_join_of_two_is_inner_join<
    T: Integer,
    V: Eq,
    W: Eq,
    F: FnMut(&[&V]) -> W,
    G: FnMut(&V, &V) -> W,
>()
    ensures { InnerJoinOfTwoIsInnerJoin (λ a. shown_full_row (λ v. v.now) a.0.now) F.FnMut
        (both (λ v. v.now) (λ v. v.now)) G.FnMut V.eq W.eq T.low T.high }
{}

/// `full_join` of two maps has the ranges of `full_join` of one with the other, with equal values, if their closures return the
/// same.
pub fn full_join_of_two_is_full_join<
    T: Integer,
    V: Eq,
    W: Eq,
    F: FnMut(&[Option<&V>]) -> W,
    G: FnMut(Option<&V>, Option<&V>) -> W,
>()
    ensures { FullJoinOfTwoIsFullJoin (λ a. shown_row (λ v. v.now) a.0.now) F.FnMut
        (either (λ v. v.now) (λ v. v.now)) G.FnMut V.eq W.eq T.low T.high }
{}
