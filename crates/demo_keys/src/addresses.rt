//! Conversions between keys and the addresses of std, and the texts of keys.
ghost use Rattle.std.specs.Prelude.{◌≡◌, Some};
ghost use Rattle.std.specs.Int.{w32, w128, to_be_bytes};
ghost use Rattle.std.specs.Net.Addr.{ipv4_bits, ipv6_bits, segments_of, IsIpv4OfBits, IsIpv6OfBits};
ghost use Rattle.std.specs.Net.Grammar.{Parses};
ghost use Rattle.std.specs.Net.Text.{ipv4_text, ipv6_text};
ghost use Rattle.demo_keys.specs.Addresses.{IsIpv4Key, IsIpv6Key};

use crate::ipv4::Ipv4;
use crate::ipv6::Ipv6;
use std::fmt::{self, Display, Formatter};
use std::net::{AddrParseError, Ipv4Addr, Ipv6Addr};
use std::str::FromStr;

impl From<Ipv4Addr> for Ipv4 {
    ghost from_gives = { λ address key. key.0 ≡ ipv4_bits address };

    fn from(address: Ipv4Addr) -> Ipv4 {
        Ipv4(address.to_bits())
    }
}

impl From<Ipv4> for Ipv4Addr {
    ghost from_gives = { λ key address. IsIpv4OfBits address key.0 };

    fn from(key: Ipv4) -> Ipv4Addr {
        Ipv4Addr::from_bits(key.0)
    }
}

/// Prints four decimal numbers separated by dots.
impl Display for Ipv4 {
    ghost output = { λ key. Some (ipv4_text (to_be_bytes w32 key.0)) };

    fn fmt<W: fmt::Write>(&self, f: &mut Formatter<W>) -> fmt::Result {
        Ipv4Addr::from(*self).fmt(f)
    }
}

impl FromStr for Ipv4 {
    type Err = AddrParseError;

    ghost from_str_gives = { Parses (λ text key. IsIpv4Key text key.0) };

    fn from_str(text: &str) -> Result<Ipv4, AddrParseError> {
        match Ipv4Addr::from_str(text) {
            Ok(address) => Ok(Ipv4::from(address)),
            Err(error) => Err(error),
        }
    }
}

impl From<Ipv6Addr> for Ipv6 {
    ghost from_gives = { λ address key. key.0 ≡ ipv6_bits address };

    fn from(address: Ipv6Addr) -> Ipv6 {
        Ipv6(address.to_bits())
    }
}

impl From<Ipv6> for Ipv6Addr {
    ghost from_gives = { λ key address. IsIpv6OfBits address key.0 };

    fn from(key: Ipv6) -> Ipv6Addr {
        Ipv6Addr::from_bits(key.0)
    }
}

/// Prints groups of hexadecimal digits, with the longest run of zeros as `::` (RFC 5952).
impl Display for Ipv6 {
    ghost output = { λ key. Some (ipv6_text (segments_of (to_be_bytes w128 key.0))) };

    fn fmt<W: fmt::Write>(&self, f: &mut Formatter<W>) -> fmt::Result {
        Ipv6Addr::from(*self).fmt(f)
    }
}

impl FromStr for Ipv6 {
    type Err = AddrParseError;

    ghost from_str_gives = { Parses (λ text key. IsIpv6Key text key.0) };

    fn from_str(text: &str) -> Result<Ipv6, AddrParseError> {
        match Ipv6Addr::from_str(text) {
            Ok(address) => Ok(Ipv6::from(address)),
            Err(error) => Err(error),
        }
    }
}
