//! A number that only proofs read. It takes no bytes, and its functions do nothing at run time.
ghost use Rattle.std.specs.Prelude.{◌≡◌, ℕ, ◌+◌};
ghost use Rattle.std.specs.Borrow.{ftrue};

use std::marker::Model;

/// A number of units of work, for contracts alone.
#[derive(Drop)]
pub struct Count {
    seal: (),
    pub ghost number: { ℕ },
}

impl Model for Count {
    ghost also_owns = { λ _. ftrue };
}

impl Count {
    /// Returns the count 0.
    pub fn new() -> Count
        ensures { result.number ≡ 0 }
    {
        Count { seal: () }
    }

    /// Returns the count plus one.
    pub fn one_more(&self) -> Count
        ensures { result.number ≡ self.now.number + 1 }
    {
        Count { seal: () }
    }

    /// Returns the count plus `n`.
    pub fn plus(&self, n: usize) -> Count
        ensures { result.number ≡ self.now.number + n }
    {
        Count { seal: () }
    }
}
