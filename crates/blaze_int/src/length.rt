//! Lengths of ranges of keys, as contracts see them. Each length has a number, and the numbers run from 0 to `most`.
ghost use Rattle.std.specs.Prelude.{◌≡◌, ◌+◌, ◌≤◌, ℕ, ◌↔◌, IsTrue};
ghost use Rattle.blaze_int.specs.Counted.{IsNumbered};

/// A type of lengths of ranges, counted in keys. Lengths compare as the numbers of keys do.
pub trait SafeLength: Copy + Ord {
    // The number of keys that a length represents. A value is a length if its number is at most `most`.
    ghost number: { Self → ℕ };

    // The greatest number that the type can represent.
    ghost most: { ℕ };

    /// Returns the length of no keys.
    fn zero() -> Self
        ensures { number result ≡ 0 };

    /// Returns the length of one key.
    fn one() -> Self
        ensures { number result ≡ 1 };

    /// Returns the sum of two lengths. It requires that the type can represent the sum.
    fn plus(self, other: Self) -> Self
        requires fits { number self + number other ≤ most }
        ensures { number result ≡ number self + number other };

    /// Returns `self` less `other`. It requires that `other` is at most `self`.
    fn minus(self, other: Self) -> Self
        requires enough { number other ≤ number self }
        ensures difference { number result + number other ≡ number self }
        ensures fits { number self ≤ most };

    // Each number up to `most` belongs to exactly one length, and lengths compare as their numbers do.
    ghost counted: { IsNumbered number most Self.cmp Self.eq };
}

/// Does nothing. Its contract states that each value of the type that a program has is a length. O(1).
pub fn length_in_hand<L: SafeLength>(length: L)
    ensures { L.number length ≤ L.most }
{
    let _ = length.minus(L::zero());
}

/// Returns whether two lengths have different numbers. O(1).
pub fn differ<L: SafeLength>(a: L, b: L) -> bool
    ensures { IsTrue result ↔ (¬ (L.number a ≡ L.number b)) }
{
    length_in_hand(a);
    length_in_hand(b);
    a != b
}
