//! The nodes of the tree: the end and the value that belong to a start.
ghost use Rattle.std.specs.Prelude.{◌≡◌, Option, Some, IfSome, IsSome};
ghost use Rattle.std.specs.Option.{option_map};
ghost use Rattle.blaze_entries.specs.Entries.{Entry, shown_entry};
ghost use Rattle.blaze_entries.specs.Nodes.{full_node, shown_borrowed_node, shown_node};

use crate::start::Start;
use blaze_int::Integer;
use std::alloc::AllocError;
use std::collections::BTreeMap;

/// The end of an entry and its value.
#[derive(Drop)]
pub struct EndValue<T, V> {
    pub end: T,
    pub value: V,
}

impl<T: Copy, V: Clone> Clone for EndValue<T, V> {
    ghost is_clone = { λ node copy. (copy.end ≡ node.end) × V.is_clone node.value copy.value };

    fn clone(&self) -> Result<Self, AllocError> {
        Ok(EndValue {
            end: self.end,
            value: self.value.clone()?,
        })
    }
}

/// Nodes ordered by their starts. A node without a value reserves the memory for a later one.
pub type Nodes<T, V> = BTreeMap<Start<T>, EndValue<T, Option<V>>>;

/// Returns the entry of a borrowed node as (first key, last key, value).
pub fn shown<'a, T: Integer, V>(
    node: Option<(&'a Start<T>, &'a EndValue<T, Option<V>>)>,
) -> Option<(T, T, &'a V)>
    requires { IfSome node (λ p. IsSome p.1.now.value) }
    ensures { (e : Option (Entry V)) → option_map (shown_borrowed_node T.rank) node.entry
        ≡ option_map full_node e → option_map (shown_entry T.rank (λ v. v.now)) result ≡ e }
{
    let (start, node) = node?;
    match &node.value {
        Some(value) => Some((start.0, node.end, value)),
        None => unreachable!(),
    }
}

/// Returns the entry of an owned node as (first key, last key, value).
pub fn given<T: Integer, V>(node: Option<(Start<T>, EndValue<T, Option<V>>)>) -> Option<(T, T, V)>
    requires { IfSome node (λ p. IsSome p.1.value) }
    ensures { (e : Option (Entry V)) → option_map (shown_node T.rank) node ≡ option_map full_node e
        → option_map (shown_entry T.rank (λ v. v)) result ≡ e }
{
    let (start, node) = node?;
    let EndValue { end, value } = node;
    match value {
        Some(value) => Some((start.0, end, value)),
        None => unreachable!(),
    }
}

/// Returns the value of a node. The node must exist and have a value.
pub fn value_of<T: Integer, V>(node: Option<EndValue<T, Option<V>>>) -> V
    requires present { IsSome node }
    requires full { IfSome node (λ n. IsSome n.value) }
    ensures { option_map (λ n. n.value) node ≡ Some (Some result) }
{
    match node {
        Some(node) => {
            let EndValue { value, .. } = node;
            match value {
                Some(value) => value,
                None => unreachable!(),
            }
        }
        None => unreachable!(),
    }
}
