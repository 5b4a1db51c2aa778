//! Edits that give an entry another start. They first insert a node without a value at the new start, since that
//! allocation may fail. They fill it before they return.
ghost use Rattle.std.specs.Prelude.{◌≡◌, ◌+◌, length, Some, None, IsSome, OnOk, OnErr};
ghost use Rattle.blaze_entries.specs.Nodes.{shown_nodes};
ghost use Rattle.blaze_entries.specs.Starts.{StartsAscend, start_at, IsStartMoved, IsFrontReplaced};

use super::Tree;
use super::edits::{exchange, insert_node};
use crate::node::{EndValue, Nodes};
use crate::start::Start;
use blaze_int::Integer;
use std::alloc::AllocError;

// Moves the node at `from` to the start `to`, where no node may be.
fn move_node<T: Integer, V: Drop>(
    nodes: &mut Nodes<T, V>,
    from: T,
    to: T,
    place: EndValue<T, Option<V>>,
) -> Result<(), AllocError>
    requires starts { StartsAscend T.low T.high (shown_nodes T.rank nodes.old.entries) }
    requires present { IsSome (start_at (T.rank from) (shown_nodes T.rank nodes.old.entries)) }
    requires absent { start_at (T.rank to) (shown_nodes T.rank nodes.old.entries) ≡ None }
    ensures ok { OnOk result
        (IsStartMoved (T.rank from) (T.rank to) (shown_nodes T.rank nodes.old.entries)
        (shown_nodes T.rank nodes.new.entries)) }
    ensures err { OnErr result (nodes.new.entries ≡ nodes.old.entries) }
{
    insert_node(nodes, to, place)?;
    if let Some(node) = nodes.remove(&Start(from)) {
        exchange(nodes, to, node);
    }
    Ok(())
}

// Replaces the node at `start` by `front`, and moves the old node to the start `to`, where no node may be.
fn replace_node<T: Integer, V: Drop>(
    nodes: &mut Nodes<T, V>,
    start: T,
    front: EndValue<T, Option<V>>,
    to: T,
    place: EndValue<T, Option<V>>,
) -> Result<(), AllocError>
    requires starts { StartsAscend T.low T.high (shown_nodes T.rank nodes.old.entries) }
    requires present { IsSome (start_at (T.rank start) (shown_nodes T.rank nodes.old.entries)) }
    requires absent { start_at (T.rank to) (shown_nodes T.rank nodes.old.entries) ≡ None }
    ensures ok { OnOk result
        (IsFrontReplaced (T.rank start) (T.rank front.end) front.value (T.rank to)
        (shown_nodes T.rank nodes.old.entries) (shown_nodes T.rank nodes.new.entries)) }
    ensures err { OnErr result (nodes.new.entries ≡ nodes.old.entries) }
{
    insert_node(nodes, to, place)?;
    if let Some(node) = exchange(nodes, start, front) {
        exchange(nodes, to, node);
    }
    Ok(())
}

impl<T: Integer, V: Drop> Tree<T, V> {
    /// Moves the entry that starts at `from` to the start `to`, with its end and value. It requires that no entry
    /// starts at `to`. If an allocation fails, the entries are unchanged. O(log n) with n entries.
    pub fn move_start(&mut self, from: T, to: T) -> Result<(), AllocError>
        requires present { IsSome (start_at (T.rank from) self.old) }
        requires absent { start_at (T.rank to) self.old ≡ None }
        ensures ok { OnOk result (IsStartMoved (T.rank from) (T.rank to) self.old self.new) }
        ensures length { OnOk result (length self.new ≡ length self.old) }
        ensures err { OnErr result (self.new ≡ self.old) }
    {
        to.in_hand();
        let place = EndValue {
            end: to,
            value: None,
        };
        move_node(&mut self.nodes, from, to, place)?;
        Ok(())
    }

    /// Splits the entry that starts at `start`. The front gets the new `end` and `value`. The old end and value go to
    /// an entry that starts at `to`, where no entry may start before the call. If an allocation fails, the entries are
    /// unchanged. O(log n) with n entries.
    pub fn replace_front(&mut self, start: T, end: T, value: V, to: T) -> Result<(), AllocError>
        requires present { IsSome (start_at (T.rank start) self.old) }
        requires absent { start_at (T.rank to) self.old ≡ None }
        ensures ok { OnOk result
            (IsFrontReplaced (T.rank start) (T.rank end) value (T.rank to) self.old self.new) }
        ensures longer { OnOk result (length self.new ≡ length self.old + 1) }
        ensures err { OnErr result (self.new ≡ self.old) }
    {
        to.in_hand();
        let value = Some(value);
        let place = EndValue {
            end: to,
            value: None,
        };
        replace_node(&mut self.nodes, start, EndValue { end, value }, to, place)?;
        Ok(())
    }
}
