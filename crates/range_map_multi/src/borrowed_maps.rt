//! Many borrowed maps, in a list of maps or of references to maps. The borrow checker learns from the maps that the keys outlive the borrow. Code that is
//! generic over keys needs this where it calls a function of streams.
ghost use Rattle.std.specs.Prelude.{◌≡◌, List, map, refl, IfOk};
ghost use Rattle.blaze_entries.specs.Entries.{Entry};

use blaze_int::Integer;
use blaze_iters::SeekingRangeValuesIter;
use range_map_blaze::RangeMapBlaze;
use std::alloc::{AllocError, Global};

/// A value, or a reference to one.
pub trait AsBorrowed<A>: Drop {
    // The value.
    ghost value: { Self → A };

    /// Returns a reference to the value.
    fn as_borrowed(&self) -> &A
        ensures { result.now ≡ value self.now };
}

/// A map, or a reference to one.
pub trait AsMap<T: Integer, V: Eq + Clone>: AsBorrowed<RangeMapBlaze<T, V>> {
    // The entries of the map.
    ghost shown: { Self → List (Entry V) };

    // They are those of the borrowed map.
    ghost are_shown: { (m : Self) → (Self.value m).entries ≡ shown m };
}

impl<T: Integer, V: Eq + Clone> AsBorrowed<RangeMapBlaze<T, V>> for RangeMapBlaze<T, V> {
    ghost value = { λ m. m };

    fn as_borrowed(&self) -> &RangeMapBlaze<T, V> {
        self
    }
}

impl<T: Integer, V: Eq + Clone> AsMap<T, V> for RangeMapBlaze<T, V> {
    ghost shown = { λ m. m.entries };

    ghost are_shown = { λ m. refl };
}

impl<'a, T: Integer, V: Eq + Clone> AsBorrowed<RangeMapBlaze<T, V>> for &'a RangeMapBlaze<T, V> {
    ghost value = { λ m. m.now };

    fn as_borrowed(&self) -> &RangeMapBlaze<T, V> {
        self
    }
}

impl<'a, T: Integer, V: Eq + Clone> AsMap<T, V> for &'a RangeMapBlaze<T, V> {
    ghost shown = { λ m. m.now.entries };

    ghost are_shown = { λ m. refl };
}

/// A reference to a map. Arrays of references are those of such elements, since the borrow checker knows nothing of an array of
/// references whose length is a parameter.
pub trait MapRef<T: Integer, V: Eq + Clone>: AsMap<T, V> {}

impl<'a, T: Integer, V: Eq + Clone> MapRef<T, V> for &'a RangeMapBlaze<T, V> {}

/// Returns the entries of a map, as a stream.
pub fn entries_of<'a, T: Integer, V: Eq + Clone, M: AsMap<T, V>>(
    map: &'a M,
) -> SeekingRangeValuesIter<'a, T, V>
    ensures { result ≡ M.shown map.now }
{
    map.as_borrowed().seeking_range_values()
}

/// Returns the entries of each map, as streams.
pub fn streams_of<'a, T: Integer, V: Eq + Clone, M: AsMap<T, V>>(
    alloc: Global,
    maps: &'a [M],
) -> Result<Vec<SeekingRangeValuesIter<'a, T, V>>, AllocError>
    ensures { IfOk result (λ streams. streams.items ≡ map M.shown maps.now) }
{
    let mut streams = Vec::new(alloc);
    for map in maps {
        streams.push(entries_of(map))?;
    }
    Ok(streams)
}
