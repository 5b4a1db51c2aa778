//! A number of comparisons, for `cmp_counted`.
ghost use Rattle.std.specs.Prelude.{◌≡◌, ℕ, ◌+◌};

use blaze_table::Count;
use std::marker::Model;

/// A number of comparisons, which only contracts read. It has no bytes at run time.
#[derive(Drop)]
pub struct Turns {
    count: Count,
}

impl Model for Turns {
    ghost use Rattle.std.specs.Prelude.{ℕ};

    ghost Value = { ℕ };

    ghost view = { λ t. t.count.number };
}

impl Turns {
    /// No comparison.
    pub fn new() -> Self
        ensures { result ≡ 0 }
    {
        Turns {
            count: Count::new(),
        }
    }

    /// Counts a comparison.
    pub(crate) fn count(&mut self)
        ensures { self.new ≡ self.old + 1 }
    {
        self.count = self.count.one_more();
    }
}
