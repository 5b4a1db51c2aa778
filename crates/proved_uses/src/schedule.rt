//! A schedule of one room: which guest has it at which minute.
ghost use Rattle.std.specs.Prelude.{◌≡◌, ◌≤◌, ◌<◌, ◌+◌, ◌-◌, ◌^◌, ◌⊎◌, ℕ, pos, false, Some, None, Ok, IfOk, OnOk, OnErr, IsTrue, IsSome};
ghost use Rattle.range_map_blaze.specs.Words.{at};

use crate::bookings::book;
use crate::each_key::cut;
use range_map_blaze::RangeMapBlaze;
use std::alloc::{AllocError, Global};
use std::marker::Model;

/// The minutes at which a room has a guest. In contracts it is a map from minutes to guests.
#[derive(Drop)]
pub struct Schedule {
    minutes: RangeMapBlaze<u64, u64>,
}

impl Model for Schedule {
    ghost use Rattle.std.specs.Prelude.{ℕ, List};
    ghost use Rattle.range_map_blaze.specs.Words.{Entry};

    ghost Value = { List (Entry ℕ) };

    ghost view = { λ s. s.minutes.entries };
}

impl Schedule {
    /// Returns a schedule without a booking.
    pub fn new(alloc: Global) -> Self
        ensures { (k : ℕ) → at result (pos k) ≡ None }
    {
        Schedule {
            minutes: RangeMapBlaze::new(alloc),
        }
    }

    /// Returns the guest at a minute, or `None` if the room is free then.
    pub fn guest_at(&self, minute: u64) -> Option<u64>
        ensures { result ≡ at self.now (pos minute) }
    {
        self.minutes.get(minute).copied()
    }

    /// Books the minutes from `lo` to `hi` for a guest, if the room is free at all of them. Returns whether it did.
    pub fn book(&mut self, lo: u64, hi: u64, guest: u64) -> Result<bool, AllocError>
        ensures free { IfOk result (λ done. IsTrue done → (k : ℕ) → lo ≤ k → k ≤ hi
            → at self.old (pos k) ≡ None) }
        ensures booked { IfOk result (λ done. IsTrue done → (k : ℕ) → lo ≤ k → k ≤ hi
            → at self.new (pos k) ≡ Some guest) }
        ensures kept { (k : ℕ) → IsSome (at self.old (pos k)) → at self.new (pos k) ≡ at self.old (pos k) }
        ensures others { (k : ℕ) → (k < lo) ⊎ (hi < k) → at self.new (pos k) ≡ at self.old (pos k) }
        ensures refused { result ≡ Ok false → self.new ≡ self.old }
        ensures err { OnErr result (self.new ≡ self.old) }
    {
        book(&mut self.minutes, lo, hi, guest)
    }

    /// Frees the minutes from `lo` to `hi`, if the guest has all of them. Returns whether the guest has.
    pub fn cancel(&mut self, lo: u64, hi: u64, guest: u64) -> Result<bool, AllocError>
        ensures was_booked { IfOk result (λ done. IsTrue done → (k : ℕ) → lo ≤ k → k ≤ hi
            → at self.old (pos k) ≡ Some guest) }
        ensures freed { IfOk result (λ done. IsTrue done → (k : ℕ) → lo ≤ k → k ≤ hi
            → at self.new (pos k) ≡ None) }
        ensures others { (k : ℕ) → (k < lo) ⊎ (hi < k) → at self.new (pos k) ≡ at self.old (pos k) }
        ensures refused { result ≡ Ok false → self.new ≡ self.old }
        ensures not_booked { result ≡ Ok false → lo ≤ hi
            → ((k : ℕ) → lo ≤ k → k ≤ hi → at self.old (pos k) ≡ Some guest) → ⊥ }
        ensures err { OnErr result (self.new ≡ self.old) }
    {
        if !self.has_all(lo, hi, guest) {
            return Ok(false);
        }
        cut(&mut self.minutes, lo, hi)?;
        Ok(true)
    }

    /// Returns whether the guest has the room at every minute from `lo` to `hi`. The range must have a minute.
    pub fn has_all(&self, lo: u64, hi: u64, guest: u64) -> bool
        ensures all { IsTrue result → (k : ℕ) → lo ≤ k → k ≤ hi → at self.now (pos k) ≡ Some guest }
        ensures not_all { result ≡ false → lo ≤ hi
            → ((k : ℕ) → lo ≤ k → k ≤ hi → at self.now (pos k) ≡ Some guest) → ⊥ }
    {
        match self.minutes.range_at(lo) {
            Some((range, owner)) => *owner == guest && hi <= *range.end(),
            None => false,
        }
    }

    /// Moves a booking of the guest from the minutes `lo` to `hi` to as many minutes from `to` on. It requires that the guest has all of
    /// the old minutes, and that the room is free at all of the new ones. Returns whether it moved the booking.
    ///
    /// If an allocation fails, every booking is as it was, and the guest may have the new minutes too.
    pub fn move_to(&mut self, lo: u64, hi: u64, guest: u64, to: u64) -> Result<bool, AllocError>
        requires order { lo ≤ hi }
        requires fits { to + (hi - lo) < 2 ^ 64 }
        ensures was_booked { IfOk result (λ done. IsTrue done → (k : ℕ) → lo ≤ k → k ≤ hi
            → at self.old (pos k) ≡ Some guest) }
        ensures freed { IfOk result (λ done. IsTrue done → (k : ℕ) → lo ≤ k → k ≤ hi
            → at self.new (pos k) ≡ None) }
        ensures booked { IfOk result (λ done. IsTrue done → (k : ℕ) → to ≤ k → k ≤ to + (hi - lo)
            → at self.new (pos k) ≡ Some guest) }
        ensures others { (k : ℕ) → (k < lo) ⊎ (hi < k) → (k < to) ⊎ (to + (hi - lo) < k)
            → at self.new (pos k) ≡ at self.old (pos k) }
        ensures refused { result ≡ Ok false → self.new ≡ self.old }
        ensures err { OnErr result ((k : ℕ) → IsSome (at self.old (pos k))
            → at self.new (pos k) ≡ at self.old (pos k)) }
    {
        if !self.has_all(lo, hi, guest) || !self.book(to, to + (hi - lo), guest)? {
            return Ok(false);
        }
        cut(&mut self.minutes, lo, hi)?;
        Ok(true)
    }
}

/// Books minutes and cancels the booking, if the room is free at all of them. Every minute is then as before.
pub fn book_and_cancel(
    schedule: &mut Schedule,
    lo: u64,
    hi: u64,
    guest: u64,
) -> Result<bool, AllocError>
    ensures { OnOk result ((k : ℕ) → at schedule.new (pos k) ≡ at schedule.old (pos k)) }
{
    if !schedule.book(lo, hi, guest)? {
        return Ok(false);
    }
    let cancelled = schedule.cancel(lo, hi, guest)?;
    Ok(cancelled)
}
