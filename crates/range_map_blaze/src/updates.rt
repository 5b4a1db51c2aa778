//! A range of keys changed by a function. All calls of the function come first, and then the pieces are edited, so that an error
//! of the function changes nothing.
ghost use Rattle.std.specs.Option.{option_eq};
ghost use Rattle.std.specs.Prelude.{◌≡◌, ◌⊎◌, ◌<ℤ◌, ◌≤ℤ◌, ℤ, pos, ◌+ℤ◌, [], Some, None, Ok, IfOk, IsOk, OnOk, OnErr};
ghost use Rattle.blaze_int.specs.Bounds.{start_rank, end_rank};
ghost use Rattle.blaze_streams.specs.Answers.{TakesValue};
ghost use Rattle.blaze_streams.specs.Carried.{shown_option};
ghost use Rattle.blaze_streams.specs.Fills.{none_before};
ghost use Rattle.blaze_streams.specs.Gaps.{rank_or_end};
ghost use Rattle.blaze_entries.specs.Canonical.{IsRangeMap};
ghost use Rattle.blaze_entries.specs.Entries.{entry, shown_list};
ghost use Rattle.blaze_entries.specs.Painted.{ClonesAreAlike};
ghost use Rattle.blaze_table.specs.Work.{IsCounted};
ghost use Rattle.range_map_blaze.specs.Edits.{AreEdits, AreEdited, AreEntriesAsked, ArePiecesAsked, IsEdited, IsPartEdited, IsPieceAsked};
ghost use Rattle.range_map_blaze.specs.Somewhere.{IsUpdatedSomewhere};
ghost use Rattle.range_map_blaze.specs.Updated.{IsCallableAtPieces, IsPartUpdated, IsUpdated, KeepsValue, KeepsValues};

use crate::map::RangeMapBlaze;
use blaze_int::compare::{greater, is_at_most, is_below, lesser};
use blaze_int::{Integer, bounds_of};
use blaze_table::{RangeTable, push_entry};
use std::alloc::AllocError;
use std::ops::RangeBounds;

impl<T: Integer, V: Eq + Clone> RangeMapBlaze<T, V> {
    /// Changes the keys in the range by a function of their values.
    ///
    /// The pieces of the range are the longest ranges within it on which the map does not change. They are its entries and its
    /// gaps, cut to the range. It calls `f` once for each piece, ascending, with the stored value, or with `None` for a gap. What
    /// `f` returns is the value of all keys of the piece afterwards; `None` leaves them without a value. All calls are made
    /// before the map is edited. Bounds that name no key call and change nothing.
    ///
    /// A piece whose result equals its old value is not edited and does not allocate. Its entry keeps its stored value, unless a
    /// changed piece next to it becomes one entry with it. If each result equals the old value, the call succeeds.
    ///
    /// If `f` returns `Err`, or the list of results can't be allocated, the map is unchanged. If a later allocation fails, the
    /// pieces up to one that changes have their new values, and those above it their old ones.
    ///
    /// O(log n) for n entries, O(1) for each piece, and O(log n) for each edit and each entry that an edit removes.
    ///
    /// ```
    /// map.ranges_update(12..=17, |old| { Ok(Some(old.map_or('-', |value| value.to_ascii_uppercase()))) })?;
    /// map; // (10..=11, 'a'), (12..=14, 'A'), (15..=15, 'B'), (16..=17, '-'), (30..=39, 'c')
    /// ```
    pub fn ranges_update<
        R: RangeBounds<T> + Drop,
        F: FnMut(Option<&V>) -> Result<Option<V>, AllocError>,
    >(&mut self, range: R, f: F) -> Result<(), AllocError>
        requires callable { (l h : ℤ)
            → (R.has_bounds range → (l ≡ start_rank T.rank T.low (R.start_bound range))
            × (h ≡ end_rank T.rank T.high (R.end_bound range)))
            → IsCallableAtPieces (λ a. shown_option (λ v. v.now) a.0) F.FnMut V.eq l h f self.old.entries }
        requires clones { ClonesAreAlike V.is_clone V.eq }
        ensures ok { R.has_bounds range → OnOk result
            (IsUpdated (λ a. shown_option (λ v. v.now) a.0) F.FnMut V.eq T.low T.high
            (start_rank T.rank T.low (R.start_bound range))
            (end_rank T.rank T.high (R.end_bound range)) f self.old.entries self.new.entries) }
        ensures err { R.has_bounds range → OnErr result ((self.new.entries ≡ self.old.entries)
            ⊎ IsPartUpdated (λ a. shown_option (λ v. v.now) a.0) F.FnMut V.eq T.low T.high
            (start_rank T.rank T.low (R.start_bound range))
            (end_rank T.rank T.high (R.end_bound range)) f self.old.entries self.new.entries) }
        ensures none { R.has_bounds range
            → end_rank T.rank T.high (R.end_bound range) <ℤ start_rank T.rank T.low
            (R.start_bound range)
            → (result ≡ Ok tt) × (self.new ≡ self.old) }
        ensures steady { R.has_bounds range
            → KeepsValues (λ a. shown_option (λ v. v.now) a.0) F.FnMut V.eq
            (start_rank T.rank T.low (R.start_bound range))
            (end_rank T.rank T.high (R.end_bound range)) f self.old.entries
            → result ≡ Ok tt }
        ensures somewhere { IsUpdatedSomewhere (λ a. shown_option (λ v. v.now) a.0) F.FnMut V.eq
            T.low T.high f self.old.entries self.new.entries }
        ensures counted { IsCounted self.old self.new }
    {
        self.in_hand();
        match bounds_of(&range) {
            Some((start, end)) => self.update_between(start, end, f),
            None => Ok(()),
        }
    }

    // Changes the keys from `start` up to `end`, as `ranges_update` does.
    fn update_between<F: FnMut(Option<&V>) -> Result<Option<V>, AllocError>>(
        &mut self,
        start: T,
        end: T,
        f: F,
    ) -> Result<(), AllocError>
        requires order { T.rank start ≤ℤ T.rank end }
        requires callable { IsCallableAtPieces (λ a. shown_option (λ v. v.now) a.0) F.FnMut V.eq
            (T.rank start) (T.rank end) f self.old.entries }
        requires clones { ClonesAreAlike V.is_clone V.eq }
        ensures ok { OnOk result (IsUpdated (λ a. shown_option (λ v. v.now) a.0) F.FnMut V.eq T.low
            T.high (T.rank start) (T.rank end) f self.old.entries self.new.entries) }
        ensures err { OnErr result ((self.new.entries ≡ self.old.entries)
            ⊎ IsPartUpdated (λ a. shown_option (λ v. v.now) a.0) F.FnMut V.eq T.low T.high
            (T.rank start) (T.rank end) f self.old.entries self.new.entries) }
        ensures steady { KeepsValues (λ a. shown_option (λ v. v.now) a.0) F.FnMut V.eq (T.rank start)
            (T.rank end) f self.old.entries → result ≡ Ok tt }
        ensures counted { IsCounted self.old self.new }
    {
        start.in_hand();
        end.in_hand();
        let edits = self.edits_between(start, end, f)?;
        self.apply_edits(edits)
    }

    // The results of a function at the pieces of the keys from `start` up to `end`, as edits.
    fn edits_between<F: FnMut(Option<&V>) -> Result<Option<V>, AllocError>>(
        &self,
        start: T,
        end: T,
        f: F,
    ) -> Result<Vec<(T, T, Option<V>)>, AllocError>
        requires order { T.rank start ≤ℤ T.rank end }
        requires callable { IsCallableAtPieces (λ a. shown_option (λ v. v.now) a.0) F.FnMut V.eq
            (T.rank start) (T.rank end) f self.now.entries }
        ensures edits { IfOk result (λ edits. AreEdits (λ a. shown_option (λ v. v.now) a.0) F.FnMut
            V.eq (T.rank start) (T.rank end) f self.now.entries (shown_list T.rank edits.items)) }
        ensures steady { KeepsValues (λ a. shown_option (λ v. v.now) a.0) F.FnMut V.eq (T.rank start)
            (T.rank end) f self.now.entries → IsOk result }
    {
        edits_of(&self.table, start, end, f)
    }
}

// The results of a function at the pieces so far.
#[derive(Drop)]
struct Asking<T: Integer, V, F> {
    // Each range with the value that its keys get, or `None`, ascending. Pieces that keep their value are left out.
    edits: Vec<(T, T, Option<V>)>,
    f: F,
}

impl<T: Integer, V: Eq + Clone, F: FnMut(Option<&V>) -> Result<Option<V>, AllocError>> Asking<
    T,
    V,
    F,
> {
    // Calls the function at the piece from `start` up to `end`, which has the value `old`, or none.
    fn ask(&mut self, start: T, end: T, old: Option<&V>) -> Result<(), AllocError>
        requires callable { TakesValue (λ a. shown_option (λ v. v.now) a.0) F.FnMut self.old.f
            (shown_option (λ v. v.now) old) }
        ensures asked { OnOk result (IsPieceAsked (λ a. shown_option (λ v. v.now) a.0) F.FnMut V.eq
            (entry (T.rank start) (T.rank end) (shown_option (λ v. v.now) old.entry)) self.old.f self.new.f
            (shown_list T.rank self.old.edits.items) (shown_list T.rank self.new.edits.items)) }
        ensures steady { KeepsValue (λ a. shown_option (λ v. v.now) a.0) F.FnMut V.eq self.old.f
            (shown_option (λ v. v.now) old.entry) → result ≡ Ok tt }
    {
        let answer = (self.f)(old)?;
        if !is_same(&answer, old) {
            push_entry(&mut self.edits, start, end, answer)?;
        }
        Ok(())
    }

    // Calls the function at the keys from `next` on below `start`, if there are any. They are a gap.
    fn ask_below(&mut self, next: Option<T>, start: T) -> Result<(), AllocError>
        requires callable { rank_or_end T.rank T.high next <ℤ T.rank start
            → TakesValue (λ a. shown_option (λ v. v.now) a.0) F.FnMut self.old.f None }
        ensures asked { OnOk result (ArePiecesAsked (λ a. shown_option (λ v. v.now) a.0) F.FnMut V.eq
            (none_before (rank_or_end T.rank T.high next) (T.rank start)) self.old.f self.new.f
            (shown_list T.rank self.old.edits.items) (shown_list T.rank self.new.edits.items)) }
        ensures steady { (rank_or_end T.rank T.high next <ℤ T.rank start
            → KeepsValue (λ a. shown_option (λ v. v.now) a.0) F.FnMut V.eq self.old.f None)
            → result ≡ Ok tt }
    {
        start.in_hand();
        if let Some(first) = next {
            if is_below(first, start) {
                first.in_hand();
                let nothing: Option<V> = None;
                return self.ask(first, start.sub_one(), nothing.as_ref());
            }
        }
        Ok(())
    }

    // Calls the function at the keys from `next` up to `end`, if there are any. They are a gap.
    fn ask_up_to(&mut self, next: Option<T>, end: T) -> Result<(), AllocError>
        requires callable { rank_or_end T.rank T.high next <ℤ (T.rank end +ℤ pos 1)
            → TakesValue (λ a. shown_option (λ v. v.now) a.0) F.FnMut self.old.f None }
        ensures asked { OnOk result (ArePiecesAsked (λ a. shown_option (λ v. v.now) a.0) F.FnMut V.eq
            (none_before (rank_or_end T.rank T.high next) (T.rank end +ℤ pos 1)) self.old.f self.new.f
            (shown_list T.rank self.old.edits.items) (shown_list T.rank self.new.edits.items)) }
        ensures steady { (rank_or_end T.rank T.high next <ℤ (T.rank end +ℤ pos 1)
            → KeepsValue (λ a. shown_option (λ v. v.now) a.0) F.FnMut V.eq self.old.f None)
            → result ≡ Ok tt }
    {
        end.in_hand();
        if let Some(first) = next {
            if is_at_most(first, end) {
                let nothing: Option<V> = None;
                return self.ask(first, end, nothing.as_ref());
            }
        }
        Ok(())
    }

    // Calls the function at the entries of a table on the keys from `start` up to `end`, and at the gaps between them. Returns
    // the first key above them, or `None` if there is none.
    fn ask_entries(
        &mut self,
        table: &RangeTable<T, V>,
        start: T,
        end: T,
    ) -> Result<Option<T>, AllocError>
        requires order { T.rank start ≤ℤ T.rank end }
        requires callable { IsCallableAtPieces (λ a. shown_option (λ v. v.now) a.0) F.FnMut V.eq
            (T.rank start) (T.rank end) self.old.f table.now.entries }
        ensures asked { IfOk result (λ next. AreEntriesAsked (λ a. shown_option (λ v. v.now) a.0)
            F.FnMut V.eq (T.rank start) (T.rank end) table.now.entries
            (rank_or_end T.rank T.high next) self.old.f self.new.f
            (shown_list T.rank self.old.edits.items) (shown_list T.rank self.new.edits.items)) }
        ensures steady { KeepsValues (λ a. shown_option (λ v. v.now) a.0) F.FnMut V.eq (T.rank start)
            (T.rank end) self.old.f table.now.entries → IsOk result }
    {
        table.in_hand();
        let mut next = Some(start);
        for (first, last, value) in table.iter_ending_from(start) {
            if is_below(end, first) {
                return Ok(next);
            }
            let (first, last) = (greater(first, start), lesser(last, end));
            self.ask_below(next, first)?;
            self.ask(first, last, Some(value))?;
            next = last.checked_add_one();
        }
        Ok(next)
    }
}

// Whether a result equals the old value of its piece.
fn is_same<V: Eq>(answer: &Option<V>, old: Option<&V>) -> bool
    ensures { result ≡ option_eq V.eq answer.now (shown_option (λ v. v.now) old.entry) }
{
    match (answer, old) {
        (Some(value), Some(old)) => *value == *old,
        (None, None) => true,
        _ => false,
    }
}

// The results of a function at the pieces of the keys from `start` up to `end`, as the edits that the table needs.
fn edits_of<T: Integer, V: Eq + Clone, F: FnMut(Option<&V>) -> Result<Option<V>, AllocError>>(
    table: &RangeTable<T, V>,
    start: T,
    end: T,
    f: F,
) -> Result<Vec<(T, T, Option<V>)>, AllocError>
    requires order { T.rank start ≤ℤ T.rank end }
    requires callable { IsCallableAtPieces (λ a. shown_option (λ v. v.now) a.0) F.FnMut V.eq
        (T.rank start) (T.rank end) f table.now.entries }
    ensures edits { IfOk result (λ edits. AreEdits (λ a. shown_option (λ v. v.now) a.0) F.FnMut V.eq
        (T.rank start) (T.rank end) f table.now.entries (shown_list T.rank edits.items)) }
    ensures steady { KeepsValues (λ a. shown_option (λ v. v.now) a.0) F.FnMut V.eq (T.rank start)
        (T.rank end) f table.now.entries → IsOk result }
{
    table.in_hand();
    let mut asking = Asking {
        edits: Vec::new(table.allocator()),
        f,
    };
    let next = asking.ask_entries(table, start, end)?;
    asking.ask_up_to(next, end)?;
    Ok(asking.edits)
}

impl<T: Integer, V: Eq + Clone> RangeMapBlaze<T, V> {
    // Sets the value of the keys of an edit, or removes them. If an allocation fails, the map is unchanged.
    fn apply_edit(&mut self, start: T, end: T, value: Option<V>) -> Result<(), AllocError>
        requires order { T.rank start ≤ℤ T.rank end }
        requires clones { ClonesAreAlike V.is_clone V.eq }
        ensures ok { OnOk result (IsEdited V.eq T.low T.high
            (entry (T.rank start) (T.rank end) value) self.old.entries self.new.entries) }
        ensures err { OnErr result (self.new.entries ≡ self.old.entries) }
        ensures counted { IsCounted self.old self.new }
    {
        match value {
            Some(value) => {
                let _ = self.table.paint(start, end, value)?;
                Ok(())
            }
            None => self.table.cut_range(start, end),
        }
    }

    // Makes edits, in order. If an allocation fails, a first part of them was made.
    fn apply_edits(&mut self, edits: Vec<(T, T, Option<V>)>) -> Result<(), AllocError>
        requires edits { IsRangeMap (option_eq V.eq) T.low T.high (shown_list T.rank edits.items) }
        requires clones { ClonesAreAlike V.is_clone V.eq }
        ensures ok { OnOk result (AreEdited V.eq T.low T.high (shown_list T.rank edits.items)
            self.old.entries self.new.entries) }
        ensures err { OnErr result (IsPartEdited V.eq T.low T.high (shown_list T.rank edits.items)
            self.old.entries self.new.entries) }
        ensures none { shown_list T.rank edits.items ≡ [] → result ≡ Ok tt }
        ensures counted { IsCounted self.old self.new }
    {
        self.in_hand();
        for (start, end, value) in edits {
            self.apply_edit(start, end, value)?;
        }
        Ok(())
    }
}
