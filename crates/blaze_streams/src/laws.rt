//! The laws of joins and of the results of closures. Each function does nothing: its contract is the law.
ghost use Rattle.blaze_streams.specs.JoinLaws.{AnswersKeepKeys, LeftJoinHasLeftKeys};
ghost use Rattle.blaze_streams.specs.JoinLaws.{FullJoinIsOfListOfTwo, FullJoinIsInner};

use blaze_int::Integer;

/// The results of a closure at the ranges of a stream have the stream's keys.
pub fn answers_keep_keys<V: Eq, W: Eq>()
    ensures { AnswersKeepKeys V W.eq }
{}

/// The segments of a left join have the keys of the left stream.
pub fn left_join_has_left_keys<T: Integer, V: Eq, W: Eq>()
    ensures { LeftJoinHasLeftKeys V.eq W.eq T.low T.high }
{}

/// The segments of a full join of two streams are those of the list of the two.
pub fn full_join_is_of_list_of_two<T: Integer, V: Eq>()
    ensures { FullJoinIsOfListOfTwo V.eq T.low T.high }
{}

/// Two streams with the same keys have the same segments in a full join and in an inner join. Two streams over all keys
/// of the type are an example.
pub fn full_join_is_inner<T: Integer, V: Eq, W: Eq>()
    ensures { FullJoinIsInner V.eq W.eq T.low T.high }
{}
