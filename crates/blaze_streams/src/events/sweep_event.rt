//! An event of a sweep over many streams.
ghost use Rattle.std.specs.Prelude.{◌≡◌};
ghost use Rattle.blaze_streams.specs.Sweeps.{instant};

use blaze_int::Integer;
use std::ops::RangeInclusive;

/// An event of a sweep over many streams: a range of one stream starts or ends.
#[derive(Debug, PartialEq, Eq, Drop)]
pub enum SweepEvent<T, VC> {
    /// A range starts.
    Start {
        /// The range.
        range: RangeInclusive<T>,
        /// The position of its stream, counted from 0.
        input: usize,
        /// The carrier of its value.
        value: VC,
    },
    /// A range ends.
    End {
        /// The last key of the range.
        last: T,
        /// The position of its stream, counted from 0.
        input: usize,
    },
}

impl<T: Integer, VC> SweepEvent<T, VC> {
    /// Returns the key of the event, and whether it is an end. These pairs compare as the times do.
    pub(crate) fn instant(&self) -> (T, bool)
        ensures { result ≡ instant self.now }
    {
        match self {
            SweepEvent::Start { range, .. } => (*range.start(), false),
            SweepEvent::End { last, .. } => (*last, true),
        }
    }
}
