//! The ports of the lines of /etc/services. It prints the ports for which TCP and UDP have different names, and the
//! free ports. For each line `? COUNT` it prints the first free range of COUNT ports from 1024 on. The Debian package
//! netbase has the table as /etc/services.

use demo_lines::{Fault, Table, content, decimal, length};
use range_map_blaze::RangeMapBlaze;
use std::alloc::Global;
use std::ops::RangeInclusive;

type Names = RangeMapBlaze<u16, String>;

/// Which protocols have a name for each port, in words.
type Uses = RangeMapBlaze<u16, &'static str>;

/// The least port that a user's service may use.
const FIRST: u16 = 1024;

/// The names of the ports of both protocols, and the numbers of free ports in the queries.
#[derive(Drop)]
pub struct Ports {
    tcp: Names,
    udp: Names,
    counts: Vec<u64>,
}

/// Returns which protocols have a name for a port, and whether the names are equal.
fn use_of(tcp: Option<&String>, udp: Option<&String>) -> &'static str {
    match (tcp, udp) {
        (Some(_), None) => "TCP alone",
        (None, _) => "UDP alone",
        _ if tcp == udp => "same name",
        _ => "other name",
    }
}

/// Parses a line `NAME PORT/PROTOCOL ALIAS..`: the name, the port and the protocol.
fn read(text: &str) -> Option<(&str, u16, &str)> {
    let mut words = text.split_ascii_whitespace();
    let name = words.next()?;
    let (port, protocol) = words.next()?.split_once('/')?;
    Some((name, u16::try_from(decimal(port)?).ok()?, protocol))
}

/// Prints the number of ports of a use.
fn print_count(rt: &HostRuntime, uses: &Uses, wanted: &'static str) -> Result<(), Fault> {
    let mut chosen = uses.clone()?;
    chosen.ranges_retain(|_, found| *found == wanted);
    println!(rt; "{wanted}: {} ports", chosen.len())?;
    Ok(())
}

/// Prints the ports for which the names of the two protocols differ.
fn print_other_names(rt: &HostRuntime, tcp: &Names, udp: &Names) -> Result<(), Fault> {
    for (port, name) in tcp {
        if let Some(other) = udp.get(port)
            && name != other
        {
            println!(rt; "{port} TCP {name}, UDP {other}")?;
        }
    }
    Ok(())
}

/// Prints the number of ports of each use, and the ports for which the names of the two protocols differ.
fn print_uses(rt: &HostRuntime, tcp: &Names, udp: &Names) -> Result<(), Fault> {
    let uses = tcp.full_join(udp, use_of)?;
    for wanted in ["TCP alone", "UDP alone", "same name", "other name"] {
        print_count(rt, &uses, wanted)?;
    }
    print_other_names(rt, tcp, udp)
}

/// Prints the number of free ports.
fn print_free(rt: &HostRuntime, used: &Names) -> Result<(), Fault> {
    let free = (!used)?;
    let (ports, ranges) = (free.len(), free.ranges_len());
    println!(rt; "{ports} ports are free, in {ranges} ranges")?;
    Ok(())
}

/// Prints the first of some gaps with at least `count` ports.
fn print_first_gap(
    rt: &HostRuntime,
    gaps: &[RangeInclusive<u16>],
    count: u64,
) -> Result<(), Fault> {
    match gaps.iter().find(|gap| count <= u64::from(length(gap))) {
        Some(gap) => println!(rt; "{count} free ports: {gap:?}")?,
        None => println!(rt; "{count} free ports: none")?,
    }
    Ok(())
}

/// Returns the gaps from `FIRST` on that are longer than each earlier gap. The first gap with at least n ports is one
/// of them, for each n.
fn longer_gaps(rt: &HostRuntime, used: &Names) -> Result<Vec<RangeInclusive<u16>>, Fault> {
    let mut longer = Vec::new(rt.alloc());
    let mut longest = 0;
    for gap in used.gaps(FIRST..) {
        let ports = length(&gap);
        if longest < ports {
            longest = ports;
            longer.push(gap)?;
        }
    }
    Ok(longer)
}

impl Ports {
    /// Returns an empty table.
    pub fn new(alloc: Global) -> Ports {
        Ports {
            tcp: RangeMapBlaze::new(alloc),
            udp: RangeMapBlaze::new(alloc),
            counts: Vec::new(alloc),
        }
    }
}

impl Table for Ports {
    fn add(&mut self, rt: &HostRuntime, line: &str) -> Result<(), Fault> {
        if let Some(count) = line.strip_prefix("? ") {
            self.counts.push(decimal(count).ok_or(Fault::Line)?)?;
        } else if let Some(text) = content(line) {
            let (name, port, protocol) = read(text).ok_or(Fault::Line)?;
            let name = String::from_str(rt.alloc(), name)?;
            match protocol {
                "tcp" => drop(self.tcp.insert(port, name)?),
                "udp" => drop(self.udp.insert(port, name)?),
                _ => drop(name),
            }
        }
        Ok(())
    }

    fn print(&mut self, rt: &HostRuntime) -> Result<(), Fault> {
        print_uses(rt, &self.tcp, &self.udp)?;
        let used = (&self.tcp | &self.udp)?;
        print_free(rt, &used)?;
        let gaps = longer_gaps(rt, &used)?;
        for count in self.counts.iter() {
            print_first_gap(rt, gaps.as_slice(), *count)?;
        }
        Ok(())
    }
}
