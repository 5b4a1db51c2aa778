//! `!map` and maps with one value on all keys that a map lacks. If an allocation fails, what is borrowed is unchanged and what is
//! owned is dropped.
ghost use Rattle.std.specs.Prelude.{[], IfOk};
ghost use Rattle.blaze_entries.specs.Complement.{IsComplement};
ghost use Rattle.blaze_entries.specs.Painted.{ClonesAreAlike};
ghost use Rattle.blaze_entries.specs.RangeSets.{unit_eq};
ghost use Rattle.range_map_blaze.specs.Made.{IsMade};

use crate::map::RangeMapBlaze;
use crate::operators::set_of::set_of;
use crate::pairs::push_clone;
use blaze_int::Integer;
use blaze_streams::{SortedDisjoint, complement};
use blaze_table::RangeSetBlaze;
use std::alloc::{AllocError, Global};
use std::ops::Not;

/// The set of the keys without a value. O(n) for n entries.
pub fn unmapped_keys<T: Integer, V: Eq>(
    map: &RangeMapBlaze<T, V>,
) -> Result<RangeSetBlaze<T>, AllocError>
    ensures { IfOk result (λ set. IsComplement unit_eq T.low T.high tt map.now.entries set) }
{
    let alloc = map.allocator();
    let stream = complement(alloc, map.ranges())?;
    set_of(alloc, stream)
}

impl<T: Integer, V: Eq + Clone> RangeMapBlaze<T, V> {
    /// Returns the map with a clone of `value` at every key of the key type. Allocates. If an allocation fails, there is no map.
    /// O(1) and one clone.
    ///
    /// ```
    /// RangeMapBlaze::<u8, char>::universe_with(alloc, &'-')?; // (0..=255, '-')
    /// ```
    pub fn universe_with(alloc: Global, value: &V) -> Result<Self, AllocError>
        requires { ClonesAreAlike V.is_clone V.eq }
        ensures { IfOk result
            (IsMade (IsComplement {V = V} V.eq T.low T.high value.now [])) }
    {
        Self::new(alloc).complement_with(value)
    }

    /// Returns the map with `value` at every key that has none here, and at no other key. Its entries have clones of `value`.
    /// Allocates. If an allocation fails, this map is unchanged. O(n) for n entries.
    ///
    /// ```
    /// map.complement_with(&'-')?; // (-2147483648..=9, '-'), (16..=29, '-'), (40..=2147483647, '-')
    /// ```
    pub fn complement_with(&self, value: &V) -> Result<Self, AllocError>
        requires { ClonesAreAlike V.is_clone V.eq }
        ensures { IfOk result
            (IsMade (IsComplement V.eq T.low T.high value.now self.now.entries)) }
    {
        let alloc = self.allocator();
        let stream = complement(alloc, self.ranges())?;
        stream.in_hand();
        let mut entries = Vec::new(alloc);
        for range in stream {
            let (start, end) = range.into_inner();
            push_clone(&mut entries, start, end, value)?;
        }
        Self::from_canonical(alloc, entries)
    }
}

/// `!map` is the set of the keys without a value. Allocates. If an allocation fails, the map is dropped. O(n) for n entries.
///
/// ```
/// (!map)?; // -2147483648..=9, 16..=29, 40..=2147483647
/// ```
impl<T: Integer, V: Eq + Drop> Not for RangeMapBlaze<T, V> {
    type Output = Result<RangeSetBlaze<T>, AllocError>;

    ghost not_gives = { λ map result. IfOk result
        (λ set. IsComplement unit_eq T.low T.high tt map.entries set) };

    fn not(self) -> Result<RangeSetBlaze<T>, AllocError> {
        unmapped_keys(&self)
    }
}

/// `!&map` is the set of the keys without a value. Allocates. If an allocation fails, the map is unchanged. O(n) for n entries.
///
/// ```
/// (!&map)?; // -2147483648..=9, 16..=29, 40..=2147483647
/// ```
impl<'a, T: Integer, V: Eq> Not for &'a RangeMapBlaze<T, V> {
    type Output = Result<RangeSetBlaze<T>, AllocError>;

    ghost not_gives = { λ map result. IfOk result
        (λ set. IsComplement unit_eq T.low T.high tt map.now.entries set) };

    fn not(self) -> Result<RangeSetBlaze<T>, AllocError> {
        unmapped_keys(self)
    }
}
