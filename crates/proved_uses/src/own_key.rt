//! A key type of your own: IPv4 addresses, a struct around a `u32`. Clauses name an address by its number.
ghost use Rattle.std.specs.Prelude.{◌≡◌, ◌≤◌, ◌<◌, ◌⊎◌, ℕ, pos, Some, None, OnOk, IfSome};
ghost use Rattle.range_map_blaze.specs.Words.{at, range_inclusive_end, range_inclusive_start};

use demo_keys::Ipv4;
use range_map_blaze::RangeMapBlaze;
use std::alloc::AllocError;
use std::ops::RangeInclusive;

/// Gives the addresses from `first` to `last` to an owner. Every other address keeps its owner.
pub fn assign(
    owners: &mut RangeMapBlaze<Ipv4, u32>,
    first: Ipv4,
    last: Ipv4,
    owner: u32,
) -> Result<bool, AllocError>
    ensures inside { OnOk result ((k : ℕ) → first.0 ≤ k → k ≤ last.0
        → at owners.new.entries (pos k) ≡ Some owner) }
    ensures outside { OnOk result ((k : ℕ) → (k < first.0) ⊎ (last.0 < k)
        → at owners.new.entries (pos k) ≡ at owners.old.entries (pos k)) }
{
    owners.ranges_insert(first..=last, owner)
}

/// Returns the owner of an address, or `None` if it has none.
pub fn owner_of(owners: &RangeMapBlaze<Ipv4, u32>, address: Ipv4) -> Option<u32>
    ensures { result ≡ at owners.now.entries (pos address.0) }
{
    owners.get(address).copied()
}

/// Returns the addresses around an address that have its owner, and are in one range.
pub fn block_of(owners: &RangeMapBlaze<Ipv4, u32>, address: Ipv4) -> Option<RangeInclusive<Ipv4>>
    ensures holds { IfSome result (λ block. ((range_inclusive_start block).0 ≤ address.0)
        × (address.0 ≤ (range_inclusive_end block).0)) }
    ensures one_owner { IfSome result (λ block. (k : ℕ) → (range_inclusive_start block).0 ≤ k
        → k ≤ (range_inclusive_end block).0
        → at owners.now.entries (pos k) ≡ at owners.now.entries (pos address.0)) }
    ensures none { result ≡ None → at owners.now.entries (pos address.0) ≡ None }
{
    let (block, _) = owners.range_at(address)?;
    Some(block)
}
