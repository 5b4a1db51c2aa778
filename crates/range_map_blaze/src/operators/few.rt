//! Whether one of two operands has so few ranges that editing the other one costs less than a merge.
use blaze_int::compare::is_below;
use blaze_int::{Integer, SafeLength, length_in_hand};
use blaze_table::RangeTable;

/// Whether so few ranges, each by a search or a paint in a map of `len` entries, cost less than a merge of both. A search or a
/// paint costs about as much as 16 entries of a merge.
pub fn are_few(few: usize, len: usize) -> bool {
    few <= len / 16
}

/// Whether a table's ranges cost less than a merge, each by a search in another table and one for each entry there that it
/// covers. If they have fewer keys than an eighth of the other's, they are assumed to cover few of its entries. Otherwise their
/// entries are counted, by a search for each range.
pub fn is_narrow<T: Integer, V: Eq + Clone, W: Eq + Clone>(
    table: &RangeTable<T, V>,
    other: &RangeTable<T, W>,
) -> bool {
    are_few(table.entries(), other.entries())
        && (is_below_eighth(table.len(), other.len()) || cover_few(table, other))
}

/// Whether a length is less than an eighth of another. Lengths have no division.
fn is_below_eighth<L: SafeLength>(part: L, whole: L) -> bool {
    length_in_hand(part);
    let mut rest = whole;
    for _turn in 0..8 {
        length_in_hand(rest);
        if rest <= part {
            return false;
        }
        rest = rest.minus(part);
    }
    true
}

/// Whether at most an eighth of the entries of another table start within the entries of a table. O(log n) for each entry of the
/// table, for n entries of the other.
pub fn cover_few<T: Integer, V: Eq + Clone, W: Eq + Clone>(
    table: &RangeTable<T, V>,
    other: &RangeTable<T, W>,
) -> bool {
    let mut most = other.entries() / 8;
    for (start, end, _) in table.iter() {
        match remaining_most(other, start, end, most) {
            Some(remaining) => most = remaining,
            None => return false,
        }
    }
    true
}

/// What remains of `most` after the entries of a table that start within a range, or `None` if there are more of them.
fn remaining_most<T: Integer, V: Eq + Clone>(
    table: &RangeTable<T, V>,
    start: T,
    end: T,
    most: usize,
) -> Option<usize> {
    let mut remaining = most;
    for (first, _, _) in table.iter_starting_from(start) {
        if is_below(end, first) {
            return Some(remaining);
        }
        if remaining == 0 {
            return None;
        }
        remaining -= 1;
    }
    Some(remaining)
}
