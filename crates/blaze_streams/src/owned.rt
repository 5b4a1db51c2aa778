//! A carrier that owns its value.
ghost use Rattle.blaze_entries.specs.Painted.{ClonesAreAlike};

use crate::carrier::{HasValue, ValueCarrier};
use std::alloc::AllocError;
use std::fmt::{self, Debug, Formatter};

/// A carrier that owns its value. `into_value` allocates nothing, and `carry` clones the value.
#[derive(PartialEq, Eq, Hash, Drop)]
pub struct Owned<V>(pub V);

/// Prints the value in its debug form.
impl<V: Debug> Debug for Owned<V> {
    ghost debug_output = { λ o. V.debug_output o.0 };

    fn fmt<W: fmt::Write>(&self, f: &mut Formatter<W>) -> fmt::Result {
        self.0.fmt(f)
    }
}

impl<V: Eq + Clone> ValueCarrier for Owned<V> {
    type Value = V;

    ghost shown = { λ o. o.0 };

    ghost can_carry = { ClonesAreAlike V.is_clone V.eq };

    ghost is_carried = { V.is_clone };

    fn value_eq(&self, other: &Self) -> bool {
        self.0 == other.0
    }

    fn into_value(self) -> Result<V, AllocError> {
        let Owned(value) = self;
        Ok(value)
    }

    fn carry(&self) -> Result<Self, AllocError> {
        Ok(Owned(self.0.clone()?))
    }
}

impl<V: Eq + Clone> HasValue for Owned<V> {
    fn has_value(&self, value: &V) -> bool {
        self.0 == *value
    }
}
