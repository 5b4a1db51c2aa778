//! Keys, as contracts see them: each has a rank, and the ranks run from `low` to `high` with no gap.
ghost use Rattle.std.specs.Prelude.{◌≡◌, ℤ, pos, ◌+ℤ◌, ◌≤ℤ◌, ◌<ℤ◌};
ghost use Rattle.std.specs.Range.{range_inclusive_start, range_inclusive_end};
ghost use Rattle.blaze_int.specs.Ranked.{IsRanked, IsNextKey, key_count};

use crate::length::SafeLength;
use std::fmt::Debug;
use std::ops::RangeInclusive;

/// A type whose values are integer-like keys. The number types of fixed width and `char` implement it.
///
/// Each key has a rank, a whole number, and the ranks have no gap. So each key except the greatest has a next key.
pub trait Integer: Copy + Ord + Debug {
    /// The type of the number of keys in a range. It can count all keys of the type.
    type SafeLen: SafeLength;

    // The rank of a value. A value is a key if its rank is from `low` to `high`.
    ghost rank: { Self → ℤ };

    // The key at a rank.
    ghost of_rank: { ℤ → Self };

    // The rank of the least key.
    ghost low: { ℤ };

    // The rank of the greatest key.
    ghost high: { ℤ };

    /// Does nothing. Its contract states that each value of the type that a program has is a key.
    fn in_hand(self)
        ensures from { low ≤ℤ rank self }
        ensures to { rank self ≤ℤ high };

    /// Returns the least key.
    fn min_value() -> Self
        ensures { rank result ≡ low };

    /// Returns the greatest key.
    fn max_value() -> Self
        ensures { rank result ≡ high };

    /// Returns the next key, or `None` if `self` is the greatest key.
    fn checked_add_one(self) -> Option<Self>
        ensures { IsNextKey rank high self result }
    {
        let greatest = Self::max_value();
        self.in_hand();
        greatest.in_hand();
        if self < greatest {
            Some(self.add_one())
        } else {
            None
        }
    }

    /// Returns the next key. It requires that `self` is not the greatest key.
    fn add_one(self) -> Self
        requires below { rank self <ℤ high }
        ensures { rank result ≡ rank self +ℤ pos 1 };

    /// Returns the previous key. It requires that `self` is not the least key.
    fn sub_one(self) -> Self
        requires above { low <ℤ rank self }
        ensures { rank result +ℤ pos 1 ≡ rank self };

    /// Sets `self` to the previous key. It requires that `self` is not the least key.
    fn assign_sub_one(&mut self)
        requires above { low <ℤ rank self.old }
        ensures { rank self.new +ℤ pos 1 ≡ rank self.old }
    {
        *self = self.sub_one();
    }

    /// Returns the number of keys in a range, both ends included. It requires a non-empty range: the start is at most
    /// the end.
    fn safe_len(r: &RangeInclusive<Self>) -> Self::SafeLen
        requires { rank (range_inclusive_start r.now) ≤ℤ rank (range_inclusive_end r.now) }
        ensures { rank (range_inclusive_start r.now) +ℤ pos (Self.SafeLen.number result)
            ≡ rank (range_inclusive_end r.now) +ℤ pos 1 };

    // Each rank from `low` to `high` belongs to exactly one key, and keys compare as their ranks do.
    ghost ranked: { IsRanked rank of_rank low high Self.cmp Self.eq };

    // A length can count all keys of the type. Generic code knows no other lower bound of `most`, so there `plus`
    // cannot be used for a sum above the number of keys.
    ghost has_room: { key_count low high ≤ℤ pos Self.SafeLen.most };
}
