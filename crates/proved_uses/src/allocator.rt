//! An allocator of ranges of numbers: what it hands out was free, and what is returned to it is free again.
ghost use Rattle.std.specs.Prelude.{◌≡◌, ◌≢◌, ◌≤◌, ◌<◌, ◌+◌, ◌^◌, ◌⊎◌, ℕ, pos, false, Some, None, Ok, IfOk, IfSome, OnOk, OnErr};
ghost use Rattle.range_map_blaze.specs.Words.{at};
ghost use Rattle.proved_uses.specs.Blocks.{AreBlocks, IsFreeRun};

use crate::Map;
use crate::each_key::{cut, paint};
use range_map_blaze::RangeMapBlaze;
use std::alloc::{AllocError, Global};
use std::marker::Model;

/// Returns the first number of the lowest free range of `length` numbers, or `None` if there is no such range.
fn first_free(map: &Map, length: u64) -> Option<u64>
    requires { 1 ≤ length }
    ensures fits { IfSome result (λ s. s + length ≤ 2 ^ 64) }
    ensures free { IfSome result (λ s. IsFreeRun map.now.entries s length) }
    ensures full { result ≡ None → (s : ℕ) → s + length ≤ 2 ^ 64 → IsFreeRun map.now.entries s length → ⊥ }
{
    let mut key: u64 = 0;
    loop {
        let (range, value) = map.range_or_gap_at(key);
        let end = *range.end();
        if value.is_none() && length - 1 <= end - key {
            return Some(key);
        }
        if end == u64::MAX {
            return None;
        }
        key = end + 1;
    }
}

/// Returns the last number of the block that begins at `start`, or `None` if no block begins there.
fn end_of_block(map: &Map, start: u64) -> Option<u64>
    ensures order { IfSome result (λ end. start ≤ end) }
    ensures run { IfSome result (λ end. (k : ℕ) → start ≤ k → k ≤ end
        → at map.now.entries (pos k) ≡ Some start) }
    ensures ends { IfSome result (λ end. at map.now.entries (pos (end + 1)) ≡ Some start → ⊥) }
    ensures none { result ≡ None → at map.now.entries (pos start) ≡ Some start → ⊥ }
{
    match map.range_at(start) {
        Some((range, first)) if *first == start => Some(*range.end()),
        _ => None,
    }
}

/// Hands out ranges of the numbers from 0 to 2^64 - 1. In contracts it is a map from each number that is handed out to the first number
/// of its range.
#[derive(Drop)]
pub struct Allocator {
    taken: RangeMapBlaze<u64, u64>,
}

impl Model for Allocator {
    ghost use Rattle.std.specs.Prelude.{ℕ, List};
    ghost use Rattle.range_map_blaze.specs.Words.{Entry};
    ghost use Rattle.proved_uses.specs.Blocks.{AreBlocks};

    ghost Value = { List (Entry ℕ) };

    ghost view = { λ a. a.taken.entries };

    ghost invariant = { λ a. AreBlocks a.taken.entries };
}

impl Allocator {
    /// Returns an allocator that has handed out nothing.
    pub fn new(alloc: Global) -> Self
        ensures { (k : ℕ) → at result (pos k) ≡ None }
    {
        Allocator {
            taken: RangeMapBlaze::new(alloc),
        }
    }

    /// Does nothing at run time. Its contract says that what is handed out is in whole blocks.
    pub fn in_hand(&self)
        ensures { AreBlocks self.now }
    {
        let _ = &self.taken;
    }

    /// Hands out `length` numbers in a row, and returns the first. Returns `None` only if no range of them is free.
    pub fn allocate(&mut self, length: u64) -> Result<Option<u64>, AllocError>
        requires { 1 ≤ length }
        ensures free { IfOk result (λ found. IfSome found (λ s. (k : ℕ) → s ≤ k → k < s + length
            → at self.old (pos k) ≡ None)) }
        ensures handed { IfOk result (λ found. IfSome found (λ s. (k : ℕ) → s ≤ k → k < s + length
            → at self.new (pos k) ≡ Some s)) }
        ensures others { IfOk result (λ found. IfSome found (λ s. (k : ℕ) → (k < s) ⊎ (s + length ≤ k)
            → at self.new (pos k) ≡ at self.old (pos k))) }
        ensures full { result ≡ Ok None → (s : ℕ) → s + length ≤ 2 ^ 64 → IsFreeRun self.old s length → ⊥ }
        ensures unchanged { result ≡ Ok None → self.new ≡ self.old }
        ensures err { OnErr result (self.new ≡ self.old) }
    {
        let Some(start) = first_free(&self.taken, length) else {
            return Ok(None);
        };
        let _ = paint(&mut self.taken, start, start + (length - 1), start)?;
        Ok(Some(start))
    }

    /// Takes back the range that begins at `start`. Returns whether there is one.
    pub fn release(&mut self, start: u64) -> Result<bool, AllocError>
        ensures freed { OnOk result ((k : ℕ) → at self.old (pos k) ≡ Some start
            → at self.new (pos k) ≡ None) }
        ensures others { OnOk result ((k : ℕ) → at self.old (pos k) ≢ Some start
            → at self.new (pos k) ≡ at self.old (pos k)) }
        ensures none { result ≡ Ok false → self.new ≡ self.old }
        ensures err { OnErr result (self.new ≡ self.old) }
    {
        let Some(end) = end_of_block(&self.taken, start) else {
            return Ok(false);
        };
        cut(&mut self.taken, start, end)?;
        Ok(true)
    }
}

/// Hands out two ranges. They share no number.
pub fn two_are_apart(a: &mut Allocator, m: u64, n: u64) -> Result<Option<(u64, u64)>, AllocError>
    requires first { 1 ≤ m }
    requires second { 1 ≤ n }
    ensures { IfOk result (λ found. IfSome found (λ p. (p.0 + m ≤ p.1) ⊎ (p.1 + n ≤ p.0))) }
{
    let Some(first) = a.allocate(m)? else {
        return Ok(None);
    };
    let Some(second) = a.allocate(n)? else {
        return Ok(None);
    };
    Ok(Some((first, second)))
}

/// Hands out a range and takes it back. Every number is then as before.
pub fn there_and_back(a: &mut Allocator, n: u64) -> Result<bool, AllocError>
    requires { 1 ≤ n }
    ensures { OnOk result ((k : ℕ) → at a.new (pos k) ≡ at a.old (pos k)) }
{
    a.in_hand();
    let Some(start) = a.allocate(n)? else {
        return Ok(false);
    };
    let freed = a.release(start)?;
    Ok(freed)
}
