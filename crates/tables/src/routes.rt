//! The owners of addresses of both families, read from lines `PREFIX NAME` such as `10.0.0.0/8 private` and
//! `2001:db8::/32 documentation`. The longest prefix that contains an address decides, whatever the order of the lines.
//!
//! It prints the shortest list of ranges. For each line `? ADDRESS` it prints the owner, and for `? prefixes` the
//! fewest prefixes with the same owners. An IPv4 address within IPv6 is printed with its IPv4 part in decimal, such as
//! `::ffff:10.0.0.1`. An example is crates/tables/stdin.
//!
//! A line may also be a range of addresses, `FIRST,LAST,NAME`. It counts as a prefix of length 0: a later range
//! replaces an earlier one. The Debian package tor-geoipdb has such a table, the countries of IPv6 addresses, as
//! /usr/share/tor/geoip6.

mod family;

use demo_keys::{Ipv4, Ipv6};
use demo_lines::{Fault, Table, content};
use family::{Block, map_of, owner_of, print_prefixes, print_ranges, read, read_block};
use range_map_blaze::RangeMapBlaze;
use std::alloc::Global;

/// A query.
#[derive(Clone, Copy)]
enum Question {
    /// The owner of an address.
    OwnerOf4(Ipv4),
    OwnerOf6(Ipv6),
    /// The fewest prefixes.
    Prefixes,
}

/// The blocks of both families, and the queries.
#[derive(Drop)]
pub struct Routes {
    blocks_of_4: Vec<Block<Ipv4>>,
    blocks_of_6: Vec<Block<Ipv6>>,
    questions: Vec<Question>,
}

/// Parses a query. An address with a colon is an IPv6 address.
fn read_question(text: &str) -> Option<Question> {
    if text == "prefixes" {
        return Some(Question::Prefixes);
    }
    if text.contains(':') {
        return Some(Question::OwnerOf6(read(text)?));
    }
    Some(Question::OwnerOf4(read(text)?))
}

/// The addresses and the owner of a line. The owner follows the first space, or the last comma in a line without a space.
fn split_owner(text: &str) -> Option<(&str, &str)> {
    match text.split_once(' ') {
        Some(parts) => Some(parts),
        None => text.rsplit_once(','),
    }
}

/// Prints the result of a query.
fn print_answer(
    rt: &HostRuntime,
    of_4: &RangeMapBlaze<Ipv4, String>,
    of_6: &RangeMapBlaze<Ipv6, String>,
    question: Question,
) -> Result<(), Fault> {
    match question {
        Question::OwnerOf4(address) => println!(rt; "{address} {}", owner_of(of_4, address))?,
        Question::OwnerOf6(address) => println!(rt; "{address} {}", owner_of(of_6, address))?,
        Question::Prefixes => {
            print_prefixes(rt, of_4)?;
            print_prefixes(rt, of_6)?;
        }
    }
    Ok(())
}

impl Routes {
    /// Returns an empty table.
    pub fn new(alloc: Global) -> Routes {
        Routes {
            blocks_of_4: Vec::new(alloc),
            blocks_of_6: Vec::new(alloc),
            questions: Vec::new(alloc),
        }
    }
}

impl Table for Routes {
    fn add(&mut self, rt: &HostRuntime, line: &str) -> Result<(), Fault> {
        let Some(text) = content(line) else {
            return Ok(());
        };
        if let Some(asked) = text.strip_prefix("? ") {
            self.questions
                .push(read_question(asked).ok_or(Fault::Line)?)?;
            return Ok(());
        }
        let (addresses, owner) = split_owner(text).ok_or(Fault::Line)?;
        if addresses.contains(':') {
            self.blocks_of_6
                .push(read_block(rt.alloc(), addresses, owner)?)?;
        } else {
            self.blocks_of_4
                .push(read_block(rt.alloc(), addresses, owner)?)?;
        }
        Ok(())
    }

    fn print(&mut self, rt: &HostRuntime) -> Result<(), Fault> {
        let of_4 = map_of(rt.alloc(), &mut self.blocks_of_4)?;
        let of_6 = map_of(rt.alloc(), &mut self.blocks_of_6)?;
        print_ranges(rt, &of_4)?;
        print_ranges(rt, &of_6)?;
        for question in self.questions.iter() {
            print_answer(rt, &of_4, &of_6, *question)?;
        }
        Ok(())
    }
}
