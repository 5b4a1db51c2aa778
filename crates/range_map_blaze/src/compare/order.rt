//! The order of maps: the lexicographic order of their lists of (key, value) pairs, compared entry by entry.
ghost use Rattle.std.specs.Prelude.{◌≡◌, ◌↔◌, ◌+◌, ◌≤◌, ◌<◌, length, refl, Some, IfSome, IfNone};
ghost use Rattle.std.specs.Cmp.{on_total, po};
ghost use Rattle.std.specs.Ordering.{int_cmp, ordering_then, on, as_partial_cmp};
ghost use Rattle.std.specs.declared.cmp.Ordering.TheVariants.{Equal};
ghost use Rattle.blaze_entries.specs.Entries.{SameContent, shown_range_entry};
ghost use Rattle.std.specs.Int.{int_min};
ghost use Rattle.range_map_blaze.specs.Order.{pairs_cmp, map_cmp, first_cmp, IsComparedOn};
ghost use Rattle.range_map_blaze.specs.OrderLaws.{equal_maps_tie, map_cmp_total};

use crate::compare::entries_left::EntriesLeft;
use crate::compare::turns::Turns;
use crate::map::RangeMapBlaze;
use blaze_int::Integer;
use blaze_int::compare::lesser;
use blaze_table::RangeEntry;
use std::cmp::Ordering;

// Compares the first pairs of two entries.
fn compare_starts<T: Integer, V: Ord>(start: T, value: &V, other_start: T, other: &V) -> Ordering
    ensures { result ≡ ordering_then (int_cmp (T.rank start) (T.rank other_start))
        (V.cmp value.now other.now) }
{
    start.in_hand();
    other_start.in_hand();
    match start.cmp(&other_start) {
        Ordering::Less => Ordering::Less,
        Ordering::Greater => Ordering::Greater,
        Ordering::Equal => value.cmp(other),
    }
}

// Compares the first pairs of two entries. Returns the order, and the last key of the entry that ends first.
fn compare_first<T: Integer, V: Ord>(
    left: RangeEntry<T, &V>,
    other: RangeEntry<T, &V>,
) -> (Ordering, T)
    ensures order { result.0 ≡ first_cmp V.cmp (shown_range_entry T.rank (λ v. v.now) left.entry)
        (shown_range_entry T.rank (λ v. v.now) other.entry) }
    ensures end { T.rank result.1 ≡ int_min (shown_range_entry T.rank (λ v. v.now) other.entry).hi
        (shown_range_entry T.rank (λ v. v.now) left.entry).hi }
{
    (
        compare_starts(left.start, left.value, other.start, other.value),
        lesser(left.end, other.end),
    )
}

// How the tails of two lists compare, if one has no entry or their first pairs differ. Otherwise removes the keys up to the end
// of the shorter first entry from both, and returns `None`.
fn look<T: Integer, V: Ord>(
    left: &mut EntriesLeft<'_, T, V>,
    other: &mut EntriesLeft<'_, T, V>,
) -> Option<Ordering>
    ensures answer { IfSome result (λ order. order ≡ pairs_cmp V.cmp left.old other.old) }
    ensures on { IfNone result (IsComparedOn V.cmp left.old other.old left.new other.new) }
{
    match left.first() {
        None => match other.first() {
            None => Some(Ordering::Equal),
            Some(_) => Some(Ordering::Less),
        },
        Some(first) => match other.first() {
            None => Some(Ordering::Greater),
            Some(other_first) => {
                let (order, end) = compare_first(first, other_first);
                if order.is_ne() {
                    return Some(order);
                }
                left.advance(end);
                other.advance(end);
                None
            }
        },
    }
}

impl<T: Integer, V: Ord> RangeMapBlaze<T, V> {
    /// Returns the order of two maps, as `cmp` does, and adds to `turns` how many times it compared two first entries. This is at
    /// most the number of entries of both maps plus one, so that it never goes key by key. Does not allocate. O(n + m) for n and
    /// m entries.
    ///
    /// ```
    /// map.cmp_counted(&other, &mut Turns::new()); // Less
    /// ```
    pub fn cmp_counted(&self, other: &Self, turns: &mut Turns) -> Ordering
        ensures order { result ≡ pairs_cmp V.cmp self.now.entries other.now.entries }
        ensures few { turns.new ≤ turns.old +
            (length self.now.entries + length other.now.entries + 1) }
        ensures last { turns.old < turns.new }
    {
        let mut left = EntriesLeft::new(&self.table);
        let mut rest = EntriesLeft::new(&other.table);
        loop {
            turns.count();
            if let Some(order) = look(&mut left, &mut rest) {
                return order;
            }
        }
    }
}

impl<T: Integer, V: Ord> Ord for RangeMapBlaze<T, V> {
    ghost cmp = { on (λ m. m.entries) (map_cmp V.cmp) };

    ghost total = { on_total (λ m. m.entries) (map_cmp_total V.cmp V.total) };

    ghost matches_partial_cmp = { λ _ _. refl };

    ghost matches_eq = { λ m n. equal_maps_tie V.eq V.cmp V.matches_eq m.entries n.entries };

    /// Returns the lexicographic order of the lists of (key, value) pairs. Pairs compare by key, then by the values' own order,
    /// and a list is greater than each of its prefixes. Returns `Equal` exactly if the maps are equal. Does not allocate. O(n +
    /// m) for n and m entries.
    ///
    /// ```
    /// map.cmp(&other); // Less
    /// ```
    fn cmp(&self, other: &Self) -> Ordering
        ensures member { result ≡ map_cmp V.cmp self.now.entries other.now.entries }
        ensures order { result ≡ pairs_cmp V.cmp self.now.entries other.now.entries }
        ensures equal { (result ≡ Equal) ↔ SameContent V.eq self.now.entries other.now.entries }
    {
        self.in_hand();
        other.in_hand();
        self.cmp_counted(other, &mut Turns::new())
    }
}

impl<T: Integer, V: Ord> PartialOrd for RangeMapBlaze<T, V> {
    ghost partial_cmp = { on (λ m. m.entries) (as_partial_cmp (map_cmp V.cmp)) };

    ghost laws = { po (on_total (λ m. m.entries) (map_cmp_total V.cmp V.total))
        (λ m n. equal_maps_tie V.eq V.cmp V.matches_eq m.entries n.entries) };

    /// Returns the order that `cmp` returns. Does not allocate. O(n + m) for n and m entries.
    ///
    /// ```
    /// map.partial_cmp(&other); // Some(Less)
    /// map < other; // true
    /// ```
    fn partial_cmp(&self, other: &Self) -> Option<Ordering>
        ensures member { result ≡ Some (map_cmp V.cmp self.now.entries other.now.entries) }
        ensures order { result ≡ Some (pairs_cmp V.cmp self.now.entries other.now.entries) }
    {
        Some(self.cmp(other))
    }
}
