//! The memory of a process, read from the lines of /proc/PID/maps: the numbers of regions and bytes, and the gaps
//! between the regions. `/proc` is part of Linux; no package has this table.
//!
//! The input may have two tables separated by an empty line. Then it prints the removed, the new and the moved regions,
//! the bytes whose permissions or name changed, and the number of bytes in both tables.

use demo_lines::{Fault, Table, hexadecimal, length};
use range_map_blaze::{JoinKind, RangeMapBlaze, join_of};
use std::alloc::{AllocError, Global};
use std::collections::BTreeMap;
use std::ops::RangeInclusive;

type Map = RangeMapBlaze<u64, String>;

/// The regions of a process, first and later, and whether the last line was empty. The value of a region is its
/// permissions and its name, or `-` without a name.
#[derive(Drop)]
pub struct Regions {
    first: Map,
    later: Option<Map>,
    is_parted: bool,
}

/// Parses a line `START-END PERMISSIONS OFFSET DEVICE INODE NAME`: the bytes, the permissions and the name. END is the
/// byte after the last one.
fn read(line: &str) -> Option<(RangeInclusive<u64>, &str, &str)> {
    let mut words = line.splitn(6, ' ');
    let (start, end) = words.next()?.split_once('-')?;
    let permissions = words.next()?;
    let _inode = words.nth(2)?;
    let name = words.next().map_or("", |name| name.trim());
    let range = hexadecimal(start)?..=hexadecimal(end)?.checked_sub(1)?;
    Some((range, permissions, if name.is_empty() { "-" } else { name }))
}

/// The bytes of the first region of each length and value.
type Places<'a> = BTreeMap<(u128, &'a str), RangeInclusive<u64>>;

/// Returns the first region of each length and value of a map. O(n log n) with n regions.
fn places_of(alloc: Global, map: &Map) -> Result<Places<'_>, AllocError> {
    let mut places = BTreeMap::new(alloc);
    for (bytes, value) in map.range_values() {
        let key = (length(&bytes), value.as_str());
        if !places.contains_key(&key) {
            places.insert(key, bytes)?;
        }
    }
    Ok(places)
}

/// Prints the numbers of regions and bytes, and the gaps between the regions.
fn print_regions(rt: &HostRuntime, map: &Map) -> Result<(), Fault> {
    let (regions, bytes) = (map.ranges_len(), map.len());
    println!(rt; "{regions} regions, {bytes} bytes")?;
    if let (Some((first, _)), Some((last, _))) = (map.first_key_value(), map.last_key_value()) {
        for gap in map.gaps(first..=last) {
            println!(rt; "gap {:x}..={:x}", gap.start(), gap.end())?;
        }
    }
    Ok(())
}

/// Prints the removed regions, and the moved ones, which are both removed and new.
fn print_gone(rt: &HostRuntime, gone: &Map, new: &Map) -> Result<(), Fault> {
    let places = places_of(rt.alloc(), new)?;
    for (bytes, name) in gone.range_values() {
        match places.get(&(length(&bytes), name.as_str())) {
            Some(to) => println!(rt; "moved {:x} to {:x} {name}", bytes.start(), to.start())?,
            None => println!(rt; "gone {:x}..={:x} {name}", bytes.start(), bytes.end())?,
        }
    }
    Ok(())
}

/// Prints the new regions that are not moved ones.
fn print_new(rt: &HostRuntime, gone: &Map, new: &Map) -> Result<(), Fault> {
    let places = places_of(rt.alloc(), gone)?;
    for (bytes, name) in new.range_values() {
        if !places.contains_key(&(length(&bytes), name.as_str())) {
            println!(rt; "new {:x}..={:x} {name}", bytes.start(), bytes.end())?;
        }
    }
    Ok(())
}

/// Prints the removed regions, the moved ones and the new ones.
fn print_moves(rt: &HostRuntime, gone: &Map, new: &Map) -> Result<(), Fault> {
    print_gone(rt, gone, new)?;
    print_new(rt, gone, new)
}

/// Prints the ranges of bytes that both tables have with different values, with the old and the new value.
fn print_other_values(rt: &HostRuntime, first: &Map, later: &Map) -> Result<(), Fault> {
    let (first, later) = (first.range_values(), later.range_values());
    for (bytes, (old, new)) in join_of(rt.alloc(), first, later, JoinKind::Inner)? {
        if let (Some(old), Some(new)) = (old, new)
            && old != new
        {
            println!(rt;
                "changed {:x}..={:x} {old} to {new}",
                bytes.start(),
                bytes.end()
            )?;
        }
    }
    Ok(())
}

/// Prints the numbers of bytes in both tables and in at least one.
fn print_shared(rt: &HostRuntime, first: &Map, later: &Map) -> Result<(), Fault> {
    let (both, either) = ((first & later)?.len(), (first | later)?.len());
    println!(rt; "{both} bytes in both, {either} in either")?;
    Ok(())
}

/// Prints the changes, and the numbers of bytes in both tables and in at least one.
fn print_changes(rt: &HostRuntime, first: &Map, later: &Map) -> Result<(), Fault> {
    print_moves(rt, &(first - later)?, &(later - first)?)?;
    print_other_values(rt, first, later)?;
    print_shared(rt, first, later)
}

impl Regions {
    /// Returns an empty table.
    pub fn new(alloc: Global) -> Regions {
        Regions {
            first: RangeMapBlaze::new(alloc),
            later: None,
            is_parted: false,
        }
    }
}

impl Table for Regions {
    fn add(&mut self, rt: &HostRuntime, line: &str) -> Result<(), Fault> {
        if line.is_empty() {
            self.is_parted = true;
            return Ok(());
        }
        let (range, permissions, name) = read(line).ok_or(Fault::Line)?;
        if self.is_parted {
            if self.later.is_some() {
                return Err(Fault::Line);
            }
            self.later = Some(RangeMapBlaze::new(rt.alloc()));
            self.is_parted = false;
        }
        let value = format!(in rt.alloc(); "{permissions} {name}")?;
        let map = self.later.as_mut().unwrap_or(&mut self.first);
        let _ = map.ranges_insert(range, value)?;
        Ok(())
    }

    fn print(&mut self, rt: &HostRuntime) -> Result<(), Fault> {
        print_regions(rt, &self.first)?;
        if let Some(later) = &self.later {
            print_regions(rt, later)?;
            print_changes(rt, &self.first, later)?;
        }
        Ok(())
    }
}
