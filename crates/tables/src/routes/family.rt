//! The blocks of one family of addresses, and their map.
use blaze_int::compare::is_below;
use demo_keys::{Address, prefix_range, take_prefix};
use demo_lines::{Fault, decimal};
use range_map_blaze::RangeMapBlaze;
use std::alloc::Global;
use std::fmt::Display;
use std::net::AddrParseError;
use std::ops::RangeInclusive;
use std::str::FromStr;

/// A block of addresses, the number of bits that they are known to share, and its owner.
#[derive(Drop)]
pub struct Block<A: Address> {
    bits: u32,
    range: RangeInclusive<A>,
    owner: String,
}

/// Parses an address.
pub fn read<A: Address + FromStr<Err = AddrParseError>>(text: &str) -> Option<A> {
    A::from_str(text).ok()
}

/// Parses a prefix `ADDRESS/LENGTH`: the number of shared bits, and the addresses. The other bits of ADDRESS must be 0.
fn prefix<A: Address + FromStr<Err = AddrParseError>>(
    text: &str,
) -> Option<(u32, RangeInclusive<A>)> {
    let (start, bits) = text.split_once('/')?;
    let bits = u32::try_from(decimal(bits)?).ok()?;
    Some((bits, prefix_range(read(start)?, bits)?))
}

/// Returns the addresses from `first` to `last`, or `None` if one cannot be parsed or they are reversed.
fn range_of<A: Address + FromStr<Err = AddrParseError>>(
    first: &str,
    last: &str,
) -> Option<RangeInclusive<A>> {
    let (first, last): (A, A) = (read(first)?, read(last)?);
    if is_below(last, first) {
        None
    } else {
        Some(first..=last)
    }
}

/// Parses a prefix or a range `FIRST,LAST`. Returns the number of shared bits and the addresses. A range counts as a
/// prefix of length 0.
fn addresses<A: Address + FromStr<Err = AddrParseError>>(
    text: &str,
) -> Option<(u32, RangeInclusive<A>)> {
    match text.split_once(',') {
        Some((first, last)) => Some((0, range_of(first, last)?)),
        None => prefix(text),
    }
}

/// Parses a prefix or a range, and returns its block with its owner.
pub fn read_block<A: Address + FromStr<Err = AddrParseError>>(
    alloc: Global,
    text: &str,
    owner: &str,
) -> Result<Block<A>, Fault> {
    let (bits, range) = addresses(text).ok_or(Fault::Line)?;
    let owner = String::from_str(alloc, owner)?;
    Ok(Block { bits, range, owner })
}

/// Builds the map of blocks. A longer prefix is painted over a shorter one, and a later line over an earlier one with
/// the same length.
pub fn map_of<A: Address>(
    alloc: Global,
    blocks: &mut Vec<Block<A>>,
) -> Result<RangeMapBlaze<A, String>, Fault> {
    blocks.sort_by_key(|block| block.bits)?;
    let painted = blocks.drain(..).map(|block| (block.range, block.owner));
    Ok(RangeMapBlaze::from_ranges(alloc, painted)?)
}

/// Returns the owner of an address.
pub fn owner_of<A: Address>(map: &RangeMapBlaze<A, String>, address: A) -> &str {
    map.get(address).map_or("-", |owner| owner.as_str())
}

/// Prints each range with its owner.
pub fn print_ranges<A: Address + Display>(
    rt: &HostRuntime,
    map: &RangeMapBlaze<A, String>,
) -> Result<(), Fault> {
    for (range, owner) in map.range_values() {
        println!(rt; "{} {} {owner}", range.start(), range.end())?;
    }
    Ok(())
}

/// Prints the fewest prefixes that cover each range, with its owner.
pub fn print_prefixes<A: Address + Display>(
    rt: &HostRuntime,
    map: &RangeMapBlaze<A, String>,
) -> Result<(), Fault> {
    for (range, owner) in map.range_values() {
        let (start, end) = range.into_inner();
        print_prefixes_of(rt, start, end, owner.as_str())?;
    }
    Ok(())
}

/// Prints the fewest prefixes that cover a range.
fn print_prefixes_of<A: Address + Display>(
    rt: &HostRuntime,
    start: A,
    end: A,
    owner: &str,
) -> Result<(), Fault> {
    let mut next = Some(start);
    while let Some(start) = next {
        if is_below(end, start) {
            break;
        }
        let (bits, after) = take_prefix(start, end);
        println!(rt; "{start}/{bits} {owner}")?;
        next = after;
    }
    Ok(())
}
