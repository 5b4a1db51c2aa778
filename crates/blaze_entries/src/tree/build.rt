//! Building a tree from a sorted list.
ghost use Rattle.std.specs.BTreeMap.{IsFromIterResult};
ghost use Rattle.std.specs.Ordering.{int_cmp, on};
ghost use Rattle.std.specs.Prelude.{◌≡◌, map, IfOk};
ghost use Rattle.blaze_entries.specs.Entries.{shown_list};
ghost use Rattle.blaze_entries.specs.Nodes.{node_of};
ghost use Rattle.blaze_entries.specs.Starts.{StartsAscend};

use super::Tree;
use crate::node::{EndValue, Nodes};
use crate::start::Start;
use blaze_int::Integer;
use std::alloc::{AllocError, Global};

// Builds the nodes of a list of entries. Of entries with equal starts, the last one remains.
fn collect<T: Integer, V: Drop>(
    alloc: Global,
    entries: Vec<(T, T, V)>,
) -> Result<Nodes<T, V>, AllocError>
    ensures { IfOk result (IsFromIterResult (on T.rank int_cmp) (map node_of entries.items)) }
{
    let nodes = entries.into_iter().map(|(start, end, value)| {
        let value = Some(value);
        (Start(start), EndValue { end, value })
    });
    nodes.collect(alloc)
}

impl<T: Integer, V: Drop> Tree<T, V> {
    /// Builds the tree of a list of (first key, last key, value). It requires that the starts ascend. If an allocation
    /// fails, the list is dropped. O(n) with n entries.
    pub fn from_sorted(alloc: Global, entries: Vec<(T, T, V)>) -> Result<Self, AllocError>
        requires { StartsAscend T.low T.high (shown_list T.rank entries.items) }
        ensures { IfOk result (λ tree. tree ≡ shown_list T.rank entries.items) }
    {
        let nodes = collect(alloc, entries)?;
        Ok(Tree { nodes })
    }
}
