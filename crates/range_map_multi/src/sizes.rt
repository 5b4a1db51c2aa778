//! The position of the map with by far the most entries, and of the map with the fewest.
ghost use Rattle.std.specs.Prelude.{◌<◌, length, IfSome};

use crate::borrowed_maps::AsMap;
use blaze_int::Integer;

/// Returns the position of a map that has at least 16 times as many entries as all others together, or `None`. With such a map
/// a search or a paint for each entry of the others takes less time than a pass over all.
pub fn position_of_large<T: Integer, V: Eq + Clone, M: AsMap<T, V>>(maps: &[M]) -> Option<usize>
    ensures { IfSome result (λ position. position < length maps.now) }
{
    let mut large = None;
    let mut most = 0;
    let mut others: usize = 0;
    for position in 0..maps.len() {
        let len = maps[position].as_borrowed().ranges_len();
        if len < most {
            others = others.saturating_add(len);
        } else {
            others = others.saturating_add(most);
            most = len;
            large = Some(position);
        }
    }
    if others <= most / 16 { large } else { None }
}

/// Returns the position of a map that has no more entries than any other.
pub fn position_of_smallest<T: Integer, V: Eq + Clone, M: AsMap<T, V>>(maps: &[M]) -> usize
    requires { 0 < length maps.now }
    ensures { result < length maps.now }
{
    let mut smallest = 0;
    let mut least = usize::MAX;
    for position in 0..maps.len() {
        let len = maps[position].as_borrowed().ranges_len();
        if len < least {
            least = len;
            smallest = position;
        }
    }
    smallest
}
