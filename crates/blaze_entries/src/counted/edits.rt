//! Edits of counted entries. They count each entry that they insert or remove.
ghost use Rattle.std.specs.Prelude.{◌≡◌, ◌+◌, ◌-◌, length, Some, None, IsSome, OnOk, OnErr, slice_get};
ghost use Rattle.std.specs.Option.{option_map};
ghost use Rattle.blaze_entries.specs.Entries.{entry};
ghost use Rattle.blaze_entries.specs.Starts.{start_at, with_entry, without, with_end, with_end_value};
ghost use Rattle.blaze_entries.specs.Starts.{with_last_end, IsLastRemoved};
ghost use Rattle.blaze_entries.specs.Starts.{IsStartMoved, IsFrontReplaced, IsFirstRemoved};

use super::Counted;
use blaze_int::Integer;
use std::alloc::AllocError;

impl<T: Integer, V> Counted<T, V> {
    /// Sets the end of the entry that starts at `start`. It allocates nothing and takes O(log n) time with n entries.
    pub fn set_end(&mut self, start: T, end: T)
        ensures { self.new
            ≡ record self.old { entries = with_end (T.rank start) (T.rank end) self.old.entries } }
    {
        self.tree.set_end(start, end);
    }

    /// Sets the end of the last entry. It allocates nothing. O(log n) with n entries, without comparing keys in the
    /// tree.
    pub fn set_last_end(&mut self, end: T)
        ensures { self.new
            ≡ record self.old { entries = with_last_end (T.rank end) self.old.entries } }
    {
        self.tree.set_last_end(end);
    }

    /// Counts `n` removed entries. It changes only the counter. A split removes its entries without a count.
    pub fn count_removed(&mut self, n: usize)
        ensures { self.new ≡ record self.old { taken_out = self.old.taken_out + n } }
    {
        self.taken_out = self.taken_out.plus(n);
    }
}

impl<T: Integer, V: Drop> Counted<T, V> {
    /// Sets the end and the value of the entry that starts at `start`. It allocates nothing and takes O(log n) time
    /// with n entries.
    pub fn replace(&mut self, start: T, end: T, value: V)
        ensures { self.new
            ≡ record self.old {
              entries = with_end_value (T.rank start)
                  (T.rank end) value self.old.entries;
            } }
    {
        self.tree.replace(start, end, value);
    }

    /// Inserts an entry. It requires that no entry starts at `start`. If an allocation fails, the entries are
    /// unchanged. O(log n) with n entries.
    pub fn insert(&mut self, start: T, end: T, value: V) -> Result<(), AllocError>
        requires absent { start_at (T.rank start) self.old.entries ≡ None }
        ensures ok { OnOk result (self.new
            ≡ record self.old {
              entries = with_entry
                  (entry (T.rank start) (T.rank end) value) self.old.entries;
              put_in = self.old.put_in + 1;
            }) }
        ensures longer { OnOk result (length self.new.entries ≡ length self.old.entries + 1) }
        ensures err { OnErr result (self.new ≡ self.old) }
    {
        self.tree.insert(start, end, value)?;
        self.put_in = self.put_in.one_more();
        Ok(())
    }

    /// Removes the entry that starts at `start` and returns its value. It allocates nothing and takes O(log n) time
    /// with n entries.
    pub fn remove(&mut self, start: T) -> V
        requires present { IsSome (start_at (T.rank start) self.old.entries) }
        ensures entries { self.new
            ≡ record self.old {
              entries = without (T.rank start) self.old.entries;
              taken_out = self.old.taken_out + 1;
            } }
        ensures value { option_map (λ e. e.value) (start_at (T.rank start) self.old.entries)
            ≡ Some result }
        ensures shorter { length self.new.entries + 1 ≡ length self.old.entries }
    {
        self.taken_out = self.taken_out.one_more();
        self.tree.remove(start)
    }

    /// Removes the first entry and returns its value. It allocates nothing. O(log n) with n entries, without comparing
    /// keys in the tree.
    pub fn remove_first(&mut self) -> V
        requires present { IsSome (slice_get self.old.entries 0) }
        ensures removed { IsFirstRemoved result self.old.entries self.new.entries }
        ensures counted { self.new
            ≡ record self.old {
              entries = self.new.entries;
              taken_out = self.old.taken_out + 1;
            } }
    {
        self.taken_out = self.taken_out.one_more();
        self.tree.remove_first()
    }

    /// Removes the last entry and returns its value. It allocates nothing. O(log n) with n entries, without comparing
    /// keys in the tree.
    pub fn remove_last(&mut self) -> V
        requires present { IsSome (slice_get self.old.entries (length self.old.entries - 1)) }
        ensures removed { IsLastRemoved result self.old.entries self.new.entries }
        ensures counted { self.new
            ≡ record self.old {
              entries = self.new.entries;
              taken_out = self.old.taken_out + 1;
            } }
    {
        self.taken_out = self.taken_out.one_more();
        self.tree.remove_last()
    }

    /// Moves the entry that starts at `from` to the start `to`, with its end and value. It requires that no entry
    /// starts at `to`. If an allocation fails, the entries are unchanged. O(log n) with n entries.
    pub fn move_start(&mut self, from: T, to: T) -> Result<(), AllocError>
        requires present { IsSome (start_at (T.rank from) self.old.entries) }
        requires absent { start_at (T.rank to) self.old.entries ≡ None }
        ensures ok { OnOk result
            (IsStartMoved (T.rank from) (T.rank to) self.old.entries self.new.entries) }
        ensures counted { OnOk result (self.new
            ≡ record self.old {
              entries = self.new.entries;
              put_in = self.old.put_in + 1;
              taken_out = self.old.taken_out + 1;
            }) }
        ensures length { OnOk result (length self.new.entries ≡ length self.old.entries) }
        ensures err { OnErr result (self.new ≡ self.old) }
    {
        self.tree.move_start(from, to)?;
        self.put_in = self.put_in.one_more();
        self.taken_out = self.taken_out.one_more();
        Ok(())
    }

    /// Splits the entry that starts at `start`. The front gets the new `end` and `value`. The old end and value go to
    /// an entry that starts at `to`, where no entry may start before the call. If an allocation fails, the entries are
    /// unchanged. O(log n) with n entries.
    pub fn replace_front(&mut self, start: T, end: T, value: V, to: T) -> Result<(), AllocError>
        requires present { IsSome (start_at (T.rank start) self.old.entries) }
        requires absent { start_at (T.rank to) self.old.entries ≡ None }
        ensures ok { OnOk result
            (IsFrontReplaced (T.rank start) (T.rank end) value
            (T.rank to) self.old.entries self.new.entries) }
        ensures counted { OnOk result (self.new
            ≡ record self.old { entries = self.new.entries; put_in = self.old.put_in + 1 }) }
        ensures longer { OnOk result (length self.new.entries ≡ length self.old.entries + 1) }
        ensures err { OnErr result (self.new ≡ self.old) }
    {
        self.tree.replace_front(start, end, value, to)?;
        self.put_in = self.put_in.one_more();
        Ok(())
    }
}
