//! Edits of a tree's entries, selected by their starts.
ghost use Rattle.std.specs.BTreeMap.{is_at, get, insert_entry};
ghost use Rattle.std.specs.Prelude.{◌≡◌, ◌+◌, ◌-◌, [], length, Some, None, IsSome, OnOk, OnErr, IfOk, slice_get};
ghost use Rattle.std.specs.Option.{option_map};
ghost use Rattle.std.specs.Ordering.{int_cmp, on};
ghost use Rattle.blaze_entries.specs.Changed.{changed};
ghost use Rattle.blaze_entries.specs.Entries.{entry};
ghost use Rattle.blaze_entries.specs.Nodes.{shown_nodes, shown_node_at};
ghost use Rattle.blaze_entries.specs.Starts.{StartsAscend, below, from, start_at, with_entry, without, with_end};
ghost use Rattle.blaze_entries.specs.Starts.{with_end_value, with_last_end, IsCloneInserted, IsFirstRemoved, IsLastRemoved};

use super::Tree;
use crate::node::{EndValue, Nodes, given, value_of};
use crate::start::Start;
use blaze_int::Integer;
use std::alloc::AllocError;
use std::mem;

// Sets the end of the node at `start`.
fn change_end<T: Integer, V>(nodes: &mut Nodes<T, V>, start: T, end: T)
    ensures { nodes.new.entries
        ≡ changed (is_at (on T.rank int_cmp start)) (λ node. record node { end = end }) nodes.old.entries }
{
    if let Some(node) = nodes.get_mut(&Start(start)) {
        node.end = end;
    }
}

// Sets the end of the last node.
fn change_last_end<T: Integer, V>(nodes: &mut Nodes<T, V>, end: T)
    requires { StartsAscend T.low T.high (shown_nodes T.rank nodes.old.entries) }
    ensures { shown_nodes T.rank nodes.new.entries
        ≡ with_last_end (T.rank end) (shown_nodes T.rank nodes.old.entries) }
{
    if let Some(mut last) = nodes.last_entry() {
        last.get_mut().end = end;
    }
}

/// Inserts a node. The compiler inlines the std `insert`, whose result has more cases, into this function. If the
/// methods call `insert` themselves, it is not inlined, and paints and insertions take about 1% longer.
pub(super) fn insert_node<T: Integer, V: Drop>(
    nodes: &mut Nodes<T, V>,
    start: T,
    node: EndValue<T, Option<V>>,
) -> Result<(), AllocError>
    ensures ok { OnOk result
        (nodes.new.entries ≡ insert_entry (on T.rank int_cmp) nodes.old.entries start node) }
    ensures err { OnErr result (nodes.new.entries ≡ nodes.old.entries) }
{
    nodes.insert(Start(start), node)?;
    Ok(())
}

/// Replaces the node at `start` and returns the old one.
pub(super) fn exchange<T: Integer, V: Drop>(
    nodes: &mut Nodes<T, V>,
    start: T,
    node: EndValue<T, Option<V>>,
) -> Option<EndValue<T, Option<V>>>
    ensures nodes { nodes.new.entries ≡ changed (is_at (on T.rank int_cmp start)) (λ _. node) nodes.old.entries }
    ensures old { option_map (shown_node_at T.rank start) result
        ≡ option_map (shown_node_at T.rank start) (get (on T.rank int_cmp) nodes.old start) }
{
    match nodes.get_mut(&Start(start)) {
        Some(old) => Some(mem::replace(old, node)),
        None => None,
    }
}

impl<T: Integer, V> Tree<T, V> {
    /// Sets the end of the entry that starts at `start`. O(log n) with n entries.
    pub fn set_end(&mut self, start: T, end: T)
        ensures { self.new ≡ with_end (T.rank start) (T.rank end) self.old }
    {
        change_end(&mut self.nodes, start, end);
    }

    /// Sets the end of the last entry. O(log n) with n entries, without comparing keys in the tree.
    pub fn set_last_end(&mut self, end: T)
        ensures { self.new ≡ with_last_end (T.rank end) self.old }
    {
        change_last_end(&mut self.nodes, end);
    }

    /// Keeps the entries that start below `key` and returns the others. If an allocation fails, the entries are
    /// unchanged.
    pub fn split_off(&mut self, key: T) -> Result<Self, AllocError>
        ensures below { OnOk result (self.new ≡ below (T.rank key) self.old) }
        ensures from { IfOk result (λ others. others ≡ from (T.rank key) self.old) }
        ensures err { OnErr result (self.new ≡ self.old) }
    {
        key.in_hand();
        let nodes = self.nodes.split_off(&Start(key))?;
        Ok(Tree { nodes })
    }
}

impl<T: Integer, V: Drop> Tree<T, V> {
    /// Sets the end and the value of the entry that starts at `start`. It allocates nothing. O(log n) with n entries.
    pub fn replace(&mut self, start: T, end: T, value: V)
        ensures { self.new ≡ with_end_value (T.rank start) (T.rank end) value self.old }
    {
        let value = Some(value);
        exchange(&mut self.nodes, start, EndValue { end, value });
    }

    /// Inserts an entry. It requires that no entry starts at `start`. If an allocation fails, the entries are
    /// unchanged. O(log n) with n entries.
    pub fn insert(&mut self, start: T, end: T, value: V) -> Result<(), AllocError>
        requires absent { start_at (T.rank start) self.old ≡ None }
        ensures ok { OnOk result
            (self.new ≡ with_entry (entry (T.rank start) (T.rank end) value) self.old) }
        ensures longer { OnOk result (length self.new ≡ length self.old + 1) }
        ensures err { OnErr result (self.new ≡ self.old) }
    {
        start.in_hand();
        let value = Some(value);
        insert_node(&mut self.nodes, start, EndValue { end, value })?;
        Ok(())
    }

    /// Removes the entry that starts at `start` and returns its value. It allocates nothing. O(log n) with n entries.
    pub fn remove(&mut self, start: T) -> V
        requires present { IsSome (start_at (T.rank start) self.old) }
        ensures entries { self.new ≡ without (T.rank start) self.old }
        ensures value { option_map (λ e. e.value) (start_at (T.rank start) self.old) ≡ Some result }
        ensures shorter { length self.new + 1 ≡ length self.old }
    {
        value_of(self.nodes.remove(&Start(start)))
    }

    /// Removes the first entry and returns its value. It allocates nothing. O(log n) with n entries, without comparing
    /// keys in the tree.
    pub fn remove_first(&mut self) -> V
        requires present { IsSome (slice_get self.old 0) }
        ensures { IsFirstRemoved result self.old self.new }
    {
        match given(self.nodes.pop_first()) {
            Some((_, _, value)) => value,
            None => unreachable!(),
        }
    }

    /// Removes the last entry and returns its value. It allocates nothing. O(log n) with n entries, without comparing
    /// keys in the tree.
    pub fn remove_last(&mut self) -> V
        requires present { IsSome (slice_get self.old (length self.old - 1)) }
        ensures { IsLastRemoved result self.old self.new }
    {
        match given(self.nodes.pop_last()) {
            Some((_, _, value)) => value,
            None => unreachable!(),
        }
    }

    /// Removes all entries. O(n) with n entries.
    pub fn clear(&mut self)
        ensures { self.new ≡ [] }
    {
        self.nodes.clear();
    }
}

impl<T: Integer, V: Clone + Drop> Tree<T, V> {
    /// Inserts an entry that starts at `start`, where no entry may start. It ends where the entry that starts at `of`
    /// ends, with a clone of its value. If an allocation or the clone fails, the entries are unchanged. O(log n) with n
    /// entries.
    pub fn insert_clone(&mut self, of: T, start: T) -> Result<(), AllocError>
        requires present { IsSome (start_at (T.rank of) self.old) }
        requires absent { start_at (T.rank start) self.old ≡ None }
        ensures ok { OnOk result
            (IsCloneInserted V.is_clone (T.rank of) (T.rank start) self.old self.new) }
        ensures longer { OnOk result (length self.new ≡ length self.old + 1) }
        ensures err { OnErr result (self.new ≡ self.old) }
    {
        match self.at(of) {
            Some(found) => {
                let (_, end, value) = found;
                let copy = value.clone()?;
                self.insert(start, end, copy)?;
                Ok(())
            }
            None => unreachable!(),
        }
    }
}
