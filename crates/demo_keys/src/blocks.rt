//! Blocks of numbers. The size of a block is a power of two, and its first number is a multiple of its size. A prefix
//! of addresses is such a block.
ghost use Rattle.std.specs.Prelude.{◌≡◌, ℕ, ◌+◌, ◌^◌, ◌≤◌, ◌↔◌, IsTrue};
ghost use Rattle.demo_keys.specs.Blocks.{BeginsBlock, IsBlockWithin};

/// Returns 2^free - 1: the number whose last `free` binary digits are ones.
fn mask(free: u32) -> u128
    requires { free ≤ 128 }
    ensures { result + 1 ≡ 2 ^ free }
{
    if free == 128 {
        u128::MAX
    } else {
        (1_u128 << free) - 1
    }
}

/// Returns whether a block of 2^free numbers begins at `start`.
#[tactic(auto, using(crate::proofs::Powers::masked))]
pub fn begins_block(start: u128, free: u32) -> bool
    requires { free ≤ 128 }
    ensures { IsTrue result ↔ BeginsBlock start free }
{
    start & mask(free) == 0
}

/// Returns the last number of the block of 2^free numbers that begins at `start`. O(1).
pub fn last_of_block(start: u128, free: u32) -> u128
    requires bits { free ≤ 128 }
    requires begins { BeginsBlock start free }
    ensures { result + 1 ≡ start + 2 ^ free }
{
    start + mask(free)
}

/// Returns whether a block of 2^free numbers begins at `first` and ends at `last` or before.
fn is_block_within(first: u128, last: u128, free: u32) -> bool
    requires bits { free ≤ 128 }
    requires in_order { first ≤ last }
    ensures { IsTrue result ↔ IsBlockWithin first last free }
{
    begins_block(first, free) && mask(free) <= last - first
}

/// Returns the number of free binary digits of the greatest block that begins at `first` and ends at `last` or before.
/// The loop runs at most 128 times.
#[tactic(auto, using(crate::proofs::Powers::one))]
pub fn greatest_block(first: u128, last: u128) -> u32
    requires { first ≤ last }
    ensures bits { result ≤ 128 }
    ensures within { IsBlockWithin first last result }
    ensures greatest { (k : ℕ) → IsBlockWithin first last k → k ≤ result }
{
    let mut free = 0;
    while free < 128 && is_block_within(first, last, free + 1) {
        free += 1;
    }
    free
}
