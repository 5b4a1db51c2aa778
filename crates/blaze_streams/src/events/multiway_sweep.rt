//! An iterator over the events of many streams.
ghost use Rattle.std.specs.Prelude.{◌≡◌, length, Some, IfSome};
ghost use Rattle.std.specs.Iterator.{item_count, UpTo};
ghost use Rattle.std.specs.Iterator.SizeHint.{IsWithinCount};
ghost use Rattle.blaze_streams.specs.Sweeps.{AscendInTime, shown_events, YieldsEvent};

use crate::carrier::ValueCarrier;
use crate::events::sweep_event::SweepEvent;
use blaze_int::Integer;
use std::iter::FusedIterator;
use std::marker::Model;
use std::vec;

/// An iterator over the events of many streams, ascending by time. The time of a start is twice the rank of the range's
/// first key. The time of an end is twice the rank of the range's last key, plus one.
#[derive(Drop)]
pub struct MultiwaySweep<T: Integer, VC: ValueCarrier> {
    rest: vec::IntoIter<SweepEvent<T, VC>>,
}

impl<T: Integer, VC: ValueCarrier> Model for MultiwaySweep<T, VC> {
    ghost use Rattle.std.specs.Prelude.{List};
    ghost use Rattle.std.specs.Coded.{coded_list};
    ghost use Rattle.std.specs.Vec.Iter.{into_iter_items};
    ghost use Rattle.blaze_streams.specs.Events.{Event, event_code};
    ghost use Rattle.blaze_streams.specs.Sweeps.{AscendInTime, shown_events};

    ghost Value = { List (Event VC.Value) };

    ghost coded = { coded_list (event_code VC.Value.code) };

    ghost view = { λ s. shown_events T.rank VC.shown (into_iter_items s.rest) };

    ghost invariant = { λ s. AscendInTime (shown_events T.rank VC.shown (into_iter_items s.rest)) };
}

impl<T: Integer, VC: ValueCarrier> MultiwaySweep<T, VC> {
    /// Returns an iterator over events, which must ascend by time. It allocates nothing. O(1).
    pub fn new(events: Vec<SweepEvent<T, VC>>) -> Self
        requires ascend { AscendInTime (shown_events T.rank VC.shown events.items) }
        ensures { result ≡ shown_events T.rank VC.shown events.items }
    {
        MultiwaySweep {
            rest: events.into_iter(),
        }
    }
}

impl<T: Integer, VC: ValueCarrier> Iterator for MultiwaySweep<T, VC> {
    type Item = SweepEvent<T, VC>;

    ghost next_gives = { YieldsEvent T.rank VC.shown (λ s. s) };

    ghost remaining = { item_count (λ s. s) };

    fn next(&mut self) -> Option<SweepEvent<T, VC>> {
        match self.rest.next()? {
            SweepEvent::Start {
                range,
                input,
                value,
            } => {
                let (start, end) = range.into_inner();
                Some(SweepEvent::Start {
                    range: start..=end,
                    input,
                    value,
                })
            }
            SweepEvent::End { last, input } => Some(SweepEvent::End { last, input }),
        }
    }

    /// Returns the exact number of remaining events as both bounds. O(1).
    fn size_hint(&self) -> (usize, Option<usize>)
        ensures lower { IsWithinCount result.0 (item_count (λ s. s) self.now) }
        ensures upper { IfSome result.1 (UpTo (item_count (λ s. s) self.now)) }
        ensures exact { result ≡ (length self.now, Some (length self.now)) }
    {
        let len = self.rest.len();
        (len, Some(len))
    }
}

impl<T: Integer, VC: ValueCarrier> FusedIterator for MultiwaySweep<T, VC> {}
