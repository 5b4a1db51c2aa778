//! Comparisons of keys, and lengths of ranges, by rank.
ghost use Rattle.std.specs.Prelude.{◌≡◌, pos, ◌+ℤ◌, ◌≤ℤ◌, int_le, int_lt};
ghost use Rattle.std.specs.Int.{int_max, int_min};
ghost use Rattle.std.specs.Ordering.{int_eq};

use crate::integer::Integer;

/// Returns whether `a` is at most `b`. O(1).
pub fn is_at_most<T: Integer>(a: T, b: T) -> bool
    ensures { result ≡ int_le (T.rank a) (T.rank b) }
{
    a.in_hand();
    b.in_hand();
    a <= b
}

/// Returns whether `a` is below `b`. O(1).
pub fn is_below<T: Integer>(a: T, b: T) -> bool
    ensures { result ≡ int_lt (T.rank a) (T.rank b) }
{
    a.in_hand();
    b.in_hand();
    a < b
}

/// Returns whether `b` is the key after `a`. O(1).
pub fn is_next<T: Integer>(a: T, b: T) -> bool
    ensures { result ≡ int_eq (T.rank b) (T.rank a +ℤ pos 1) }
{
    a.in_hand();
    b.in_hand();
    match a.checked_add_one() {
        Some(next) => {
            next.in_hand();
            next == b
        }
        None => false,
    }
}

/// Returns the lesser of two keys. O(1).
pub fn lesser<T: Integer>(a: T, b: T) -> T
    ensures { T.rank result ≡ int_min (T.rank b) (T.rank a) }
{
    if is_below(a, b) { a } else { b }
}

/// Returns the greater of two keys. O(1).
pub fn greater<T: Integer>(a: T, b: T) -> T
    ensures { T.rank result ≡ int_max (T.rank b) (T.rank a) }
{
    if is_below(a, b) { b } else { a }
}

/// Returns the number of keys from `start` to `end`, both included. The range must not be empty. O(1).
pub fn length<T: Integer>(start: T, end: T) -> T::SafeLen
    requires order { T.rank start ≤ℤ T.rank end }
    ensures { T.rank start +ℤ pos (T.SafeLen.number result) ≡ T.rank end +ℤ pos 1 }
{
    T::safe_len(&(start..=end))
}
