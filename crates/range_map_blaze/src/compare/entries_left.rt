//! The tail of a table's entries: those that a comparison has not compared yet.
ghost use Rattle.std.specs.Prelude.{◌≡◌, [], IfNone, slice_get};
ghost use Rattle.std.specs.Option.{option_map};
ghost use Rattle.blaze_entries.specs.Canonical.{IsCanonical};
ghost use Rattle.blaze_entries.specs.Entries.{shown_range_entry};
ghost use Rattle.blaze_entries.specs.Splice.{after};
ghost use Rattle.blaze_streams.specs.Choosing.{ahead_of};
ghost use Rattle.blaze_streams.specs.Cursors.{Reaches};

use blaze_int::Integer;
use blaze_int::compare::is_at_most;
use blaze_table::{Iter, RangeEntry, RangeTable};
use std::marker::Model;

/// The tail of a table's entries: what remains of the first of them, and the others.
#[derive(Drop)]
pub struct EntriesLeft<'a, T: Integer, V: Eq> {
    first: Option<RangeEntry<T, &'a V>>,
    others: Iter<'a, T, V>,
}

impl<'a, T: Integer, V: Eq> Model for EntriesLeft<'a, T, V> {
    ghost use Rattle.std.specs.Prelude.{List, [], IfNone, ◌≡◌};
    ghost use Rattle.std.specs.Coded.{coded_list};
    ghost use Rattle.blaze_entries.specs.Entries.{Entry, entry_code};
    ghost use Rattle.blaze_entries.specs.Canonical.{IsCanonical};
    ghost use Rattle.blaze_streams.specs.Choosing.{ahead_of};

    ghost Value = { List (Entry V) };

    ghost coded = { coded_list (entry_code V.code) };

    ghost view = { λ s. ahead_of T.rank (λ v. v.now) s.first s.others };

    ghost invariant = { λ s. IfNone s.first (s.others ≡ [])
        × IsCanonical V.eq (ahead_of T.rank (λ v. v.now) s.first s.others) };
}

// Takes the first entry.
fn take_first<'a, T: Integer, V: Eq>(entries: &mut Iter<'a, T, V>) -> Option<RangeEntry<T, &'a V>>
    ensures left { ahead_of T.rank (λ v. v.now) result entries.new ≡ entries.old }
    ensures none { IfNone result (entries.new ≡ []) }
{
    let (start, end, value) = entries.next()?;
    Some(RangeEntry { start, end, value })
}

impl<'a, T: Integer, V: Eq> EntriesLeft<'a, T, V> {
    /// All entries of a table.
    pub fn new(table: &'a RangeTable<T, V>) -> Self
        ensures { result ≡ table.now.entries }
    {
        table.in_hand();
        let mut others = table.iter();
        let first = take_first(&mut others);
        EntriesLeft { first, others }
    }

    /// What remains of the first entry.
    pub fn first(&self) -> Option<RangeEntry<T, &'a V>>
        ensures first { option_map (shown_range_entry T.rank (λ v. v.now)) result ≡ slice_get self.now 0 }
        ensures canonical { IsCanonical V.eq self.now }
    {
        match &self.first {
            None => None,
            Some(RangeEntry { start, end, value }) => Some(RangeEntry {
                start: *start,
                end: *end,
                value: *value,
            }),
        }
    }

    /// Removes the keys up to `end`, which is not above the end of the first entry.
    #[tactic(auto, using(blaze_table::proofs::Cuts::Cutting::after_whole))]
    pub fn advance(&mut self, end: T)
        requires { Reaches (T.rank end) self.old }
        ensures { self.new ≡ after (T.rank end) self.old }
    {
        if let Some(
            RangeEntry {
                start,
                end: last,
                value,
            },
        ) = self.first
        {
            if is_at_most(last, end) {
                self.first = take_first(&mut self.others);
            } else if is_at_most(start, end) {
                last.in_hand();
                self.first = Some(RangeEntry {
                    start: end.add_one(),
                    end: last,
                    value,
                });
            }
        }
    }
}
