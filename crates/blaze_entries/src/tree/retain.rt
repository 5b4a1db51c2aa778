//! Removal of the entries that a closure rejects.
ghost use Rattle.std.specs.Prelude.{Bool};
ghost use Rattle.std.specs.List.Retain.{IsFiltered};
ghost use Rattle.std.specs.Map.Calls.{CalledAtPair, TakesPair, CallableOnEachPair, RetainsPairs};
ghost use Rattle.blaze_entries.specs.Answers.{AnswersAt, IsCallableAtEach};
ghost use Rattle.blaze_entries.specs.NodeAnswers.{AnswersAtNode, TakesNode};

use super::Tree;
use crate::node::EndValue;
use crate::start::Start;
use blaze_int::Integer;
use std::cmp::Ord;
use std::collections::BTreeMap;
use std::marker::Model;
use std::ops::RangeInclusive;

// A test of a map's pairs. The borrow checker rejects a closure whose signature names the node of a generic key, except
// in a function that is generic in the pair.
trait Keeps<K, V>: Drop {
    // The test may be called with this key and value.
    ghost accepts: { Self → K → V → Type 0 };

    // A call with this key and value may return this result, and leave this value and this test.
    ghost step: { Self → K → V → Bool → V → Self → Type 0 };

    fn keeps(&mut self, key: &K, value: &mut V) -> bool
        requires { accepts self.old key.now value.old }
        ensures { step self.old key.now value.old result value.new self.new };
}

// A closure over an entry's range and value, as a test of the entry's node.
#[derive(Drop)]
struct OnEntry<F> {
    keep: F,
}

impl<F> Model for OnEntry<F> {
    ghost Value = { F };

    ghost view = { λ a. a.keep };
}

impl<T: Integer, V, F: FnMut(&RangeInclusive<T>, &V) -> bool> Keeps<
    Start<T>,
    EndValue<T, Option<V>>,
> for OnEntry<F> {
    ghost accepts = { TakesNode T.rank F.FnMut };

    ghost step = { AnswersAtNode T.rank F.FnMut };

    fn keeps(&mut self, key: &Start<T>, value: &mut EndValue<T, Option<V>>) -> bool {
        match &value.value {
            Some(stored) => (self.keep)(&(key.0..=value.end), stored),
            None => unreachable!(),
        }
    }
}

// `BTreeMap::retain` with the one clause that `retain_by` uses.
fn retain_pairs<K: Ord + Drop, V: Drop, F: FnMut(&K, &mut V) -> bool>(
    pairs: &mut BTreeMap<K, V>,
    f: F,
)
    requires { CallableOnEachPair (CalledAtPair F.FnMut) (TakesPair F.FnMut) f pairs.old.entries }
    ensures { RetainsPairs (CalledAtPair F.FnMut) f pairs.old.entries pairs.new.entries }
{
    pairs.retain(f);
}

// Keeps the pairs for which a test returns `true`.
fn retain_by<K: Ord + Drop, V: Drop, E: Keeps<K, V>>(pairs: &mut BTreeMap<K, V>, mut test: E)
    requires { CallableOnEachPair E.step E.accepts test pairs.old.entries }
    ensures { RetainsPairs E.step test pairs.old.entries pairs.new.entries }
{
    retain_pairs(
        pairs,
        |key, value|
            requires { E.accepts test key.now value.old }
            ensures { E.step test.entry key.now value.old result value.new test.exit }
        { test.keeps(key, value) },
    );
}

impl<T: Integer, V: Drop> Tree<T, V> {
    /// Keeps the entries for which `f` returns `true`. It calls `f` once for each entry, ascending. It allocates
    /// nothing. O(n) with n entries. A removed entry takes O(log n) more only if its node of the tree has no entry to
    /// spare.
    pub fn retain<F: FnMut(&RangeInclusive<T>, &V) -> bool>(&mut self, f: F)
        requires { IsCallableAtEach T.rank F.FnMut f self.old }
        ensures { IsFiltered (AnswersAt T.rank F.FnMut) f self.old self.new }
    {
        retain_by(&mut self.nodes, OnEntry { keep: f });
    }
}
