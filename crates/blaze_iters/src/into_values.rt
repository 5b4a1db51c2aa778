//! An iterator over the values of an owned table, one for each key.
ghost use Rattle.std.specs.Prelude.{◌≡◌, length, None, IfSome, map};
ghost use Rattle.std.specs.Iterator.{item_count, UpTo};
ghost use Rattle.std.specs.Iterator.SizeHint.{IsWithinCount};
ghost use Rattle.blaze_entries.specs.Painted.{ClonesAreAlike};
ghost use Rattle.blaze_entries.specs.Pairs.{pair_list};
ghost use Rattle.blaze_iters.specs.Left.{unopened, values_left};
ghost use Rattle.blaze_iters.specs.Owned.{GivesFirst, GivesLast, IsLike};

use crate::into_iter_map::IntoIterMap;
use blaze_int::Integer;
use blaze_table::RangeTable;
use std::alloc::AllocError;
use std::iter::FusedIterator;
use std::marker::Model;

/// An iterator over the values of an owned table, one for each key, in the order of the keys. It is double-ended. The
/// value is cloned for each key of a range except the one that is yielded last, which gets the stored value. If a clone
/// fails, the iterator yields the error and then ends. All keys take O(n + k) time and at most k clones, with n entries
/// and k keys.
#[derive(Drop)]
pub struct IntoValues<T: Integer, V> {
    pairs: IntoIterMap<T, V>,
}

impl<T: Integer, V> Model for IntoValues<T, V> {
    ghost use Rattle.blaze_iters.specs.Owned.{OwnedLeft};

    ghost Value = { OwnedLeft V };

    ghost view = { λ s. s.pairs };
}

impl<T: Integer, V: Eq + Drop> IntoValues<T, V> {
    /// Returns an iterator over the values of a table, one for each key. It allocates nothing.
    pub fn new(table: RangeTable<T, V>) -> Self
        ensures unopened { result ≡ unopened table.entries }
        ensures values { values_left T.of_rank (λ es. es) result
            ≡ map (λ p. p.1) (pair_list T.of_rank table.entries) }
    {
        IntoValues {
            pairs: IntoIterMap::new(table),
        }
    }
}

impl<T: Integer, V: Eq + Clone> Iterator for IntoValues<T, V> {
    type Item = Result<V, AllocError>;

    ghost can_next = { λ _. ClonesAreAlike V.is_clone V.eq };

    ghost next_gives = { GivesFirst (values_left T.of_rank (λ es. es)) (IsLike V.eq) };

    ghost remaining = { item_count (values_left T.of_rank (λ es. es)) };

    fn next(&mut self) -> Option<Result<V, AllocError>> {
        let value = match self.pairs.next()? {
            Ok((_, value)) => value,
            Err(refused) => return Some(Err(refused)),
        };
        Some(Ok(value))
    }

    /// Returns the number of ranges of which no value was yielded as the lower bound, and no upper bound. After a
    /// failed clone the lower bound is 0. O(1).
    fn size_hint(&self) -> (usize, Option<usize>)
        ensures lower { IsWithinCount result.0
            (item_count (values_left T.of_rank (λ es. es)) self.now) }
        ensures upper { IfSome result.1
            (UpTo (item_count (values_left T.of_rank (λ es. es)) self.now)) }
        ensures hint { result ≡ (length self.now.inner, None) }
    {
        (self.pairs.unopened_len(), None)
    }
}

impl<T: Integer, V: Eq + Clone> DoubleEndedIterator for IntoValues<T, V> {
    ghost can_next_back = { λ _. ClonesAreAlike V.is_clone V.eq };

    ghost next_back_gives = { GivesLast (values_left T.of_rank (λ es. es)) (IsLike V.eq) };

    fn next_back(&mut self) -> Option<Result<V, AllocError>> {
        let value = match self.pairs.next_back()? {
            Ok((_, value)) => value,
            Err(refused) => return Some(Err(refused)),
        };
        Some(Ok(value))
    }
}

impl<T: Integer, V: Eq + Clone> FusedIterator for IntoValues<T, V> {}
