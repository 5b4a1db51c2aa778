//! Lists of pairs that are already ascending and disjoint.
ghost use Rattle.std.specs.Prelude.{◌≤ℤ◌, ◌↔◌, IsTrue, IfOk};
ghost use Rattle.blaze_entries.specs.Entries.{shown_list};
ghost use Rattle.blaze_table.specs.CanonicalOf.{IsCanonicalOf};
ghost use Rattle.blaze_table.specs.Swept.{AreApart, key_after};

use crate::sweep::push::push_entry;
use blaze_int::Integer;
use blaze_int::compare::{is_at_most, is_below};
use std::alloc::{AllocError, Global};

/// Returns whether a pair has a key and starts above `last`, the end of the previous pair.
fn follows<T: Integer, V>(last: Option<T>, pair: &(T, T, V)) -> bool
    ensures { IsTrue result ↔ ((key_after T.rank T.low last ≤ℤ T.rank pair.now.0)
        × (T.rank pair.now.0 ≤ℤ T.rank pair.now.1)) }
{
    let (start, end, _) = pair;
    start.in_hand();
    match last {
        Some(last) => is_below(last, *start) && is_at_most(*start, *end),
        None => is_at_most(*start, *end),
    }
}

/// Returns whether each pair has a key and starts above the end of the previous pair. O(n) with n pairs.
pub(crate) fn is_ascending<T: Integer, V>(pairs: &[(T, T, V)]) -> bool
    ensures { IsTrue result ↔ AreApart T.low (shown_list T.rank pairs.now) }
{
    let mut last = None;
    let mut rest = pairs;
    while let Some((pair, others)) = rest.split_first() {
        if !follows(last, pair) {
            return false;
        }
        let (_, end, _) = pair;
        last = Some(*end);
        rest = others;
    }
    true
}

/// Joins touching pairs with equal values in a list of ascending disjoint pairs. Each value is moved. O(n) with n
/// pairs.
pub(crate) fn joined_entries<T: Integer, V: Eq + Clone>(
    alloc: Global,
    pairs: Vec<(T, T, V)>,
) -> Result<Vec<(T, T, V)>, AllocError>
    requires { AreApart T.low (shown_list T.rank pairs.items) }
    ensures { IfOk result (λ entries. IsCanonicalOf V.eq T.low T.high (shown_list T.rank pairs.items)
        (shown_list T.rank entries.items)) }
{
    let mut entries = Vec::new(alloc);
    for (start, end, value) in pairs {
        start.in_hand();
        end.in_hand();
        push_entry(&mut entries, start, end, value)?;
    }
    Ok(entries)
}
