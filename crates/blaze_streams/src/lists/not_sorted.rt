//! The error of a list that is no valid stream.
ghost use Rattle.std.specs.Prelude.{◌++◌, Some, codes};
ghost use Rattle.std.specs.Fmt.{decimal};

use std::error::Error;
use std::fmt::{self, Display, Formatter};

/// The error of a list that does not obey the law of a stream.
#[derive(Clone, Copy, Debug, PartialEq, Eq)]
pub struct NotSorted {
    /// The position of the first invalid item, counted from 0.
    pub at: usize,
}

/// Prints `item 3 is out of order`, with the item's position.
impl Display for NotSorted {
    ghost output = { λ e. Some (codes "item " ++ decimal e.at ++ codes " is out of order") };

    fn fmt<W: fmt::Write>(&self, f: &mut Formatter<W>) -> fmt::Result {
        write!(f, "item {} is out of order", self.at)
    }
}

impl Error for NotSorted {}
