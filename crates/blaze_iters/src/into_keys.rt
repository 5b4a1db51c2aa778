//! An iterator over the keys of an owned table.
ghost use Rattle.std.specs.Prelude.{◌≡◌, length, None, IfSome, map};
ghost use Rattle.std.specs.Iterator.{item_count, UpTo};
ghost use Rattle.std.specs.Iterator.SizeHint.{IsWithinCount};
ghost use Rattle.blaze_entries.specs.Pairs.{pair_list};
ghost use Rattle.blaze_iters.specs.Left.{unopened, keys_left, YieldsOpeningFirst};
ghost use Rattle.blaze_iters.specs.Left.{YieldsOpeningLast};

use crate::into_iter_map::IntoIterMap;
use blaze_int::Integer;
use blaze_table::RangeTable;
use std::iter::FusedIterator;
use std::marker::Model;

/// An iterator over the keys of an owned table, ascending. It is double-ended and clones no value. All keys take
/// O(n + k) time, with n entries and k keys.
#[derive(Drop)]
pub struct IntoKeys<T: Integer, V> {
    pairs: IntoIterMap<T, V>,
}

impl<T: Integer, V> Model for IntoKeys<T, V> {
    ghost use Rattle.blaze_iters.specs.Owned.{OwnedLeft};

    ghost Value = { OwnedLeft V };

    ghost view = { λ s. s.pairs };
}

impl<T: Integer, V: Eq + Drop> IntoKeys<T, V> {
    /// Returns an iterator over the keys of a table. It allocates nothing.
    pub fn new(table: RangeTable<T, V>) -> Self
        ensures unopened { result ≡ unopened table.entries }
        ensures keys { keys_left T.of_rank (λ es. es) result
            ≡ map (λ p. p.0) (pair_list T.of_rank table.entries) }
    {
        IntoKeys {
            pairs: IntoIterMap::new(table),
        }
    }
}

impl<T: Integer, V: Eq + Drop> Iterator for IntoKeys<T, V> {
    type Item = T;

    ghost next_gives = { YieldsOpeningFirst (λ es. es) (λ k. k) (keys_left T.of_rank (λ es. es)) };

    ghost remaining = { item_count (keys_left T.of_rank (λ es. es)) };

    fn next(&mut self) -> Option<T> {
        self.pairs.next_key()
    }

    /// Returns the number of ranges of which no key was yielded as the lower bound, and no upper bound. O(1).
    fn size_hint(&self) -> (usize, Option<usize>)
        ensures lower { IsWithinCount result.0
            (item_count (keys_left T.of_rank (λ es. es)) self.now) }
        ensures upper { IfSome result.1
            (UpTo (item_count (keys_left T.of_rank (λ es. es)) self.now)) }
        ensures hint { result ≡ (length self.now.inner, None) }
    {
        (self.pairs.unopened_len(), None)
    }
}

impl<T: Integer, V: Eq + Drop> DoubleEndedIterator for IntoKeys<T, V> {
    ghost next_back_gives = { YieldsOpeningLast (λ es. es) (λ k. k)
        (keys_left T.of_rank (λ es. es)) };

    fn next_back(&mut self) -> Option<T> {
        self.pairs.next_back_key()
    }
}

impl<T: Integer, V: Eq + Drop> FusedIterator for IntoKeys<T, V> {}
