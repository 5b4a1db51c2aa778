//! Key types, as scripts write and print them.
use range_map_blaze::{Integer, UIntPlusOne};
use std::alloc::AllocError;
use std::fmt::{Debug, Write};
use std::hash::Hash;
use std::str::FromStr;

/// A key type that a script can name.
pub trait ScriptKey: Integer<SafeLen: Debug> + Hash + FromStr<Err: Drop> {
    /// The key of a word: the number of its digits, after a minus for a signed type.
    fn read(word: &str) -> Option<Self> {
        if word.starts_with('+') {
            return None;
        }
        word.parse::<Self>().ok()
    }

    /// Prints a number of keys, in decimal.
    fn print_len(len: Self::SafeLen, reply: &mut String) -> Result<(), AllocError> {
        write!(reply, "{len:?}")
    }
}

/// The character of `U+` and one to six hexadecimal digits.
fn character(word: &str) -> Option<char> {
    let digits = word.strip_prefix("U+")?;
    if digits.starts_with('+') || 6 < digits.len() {
        return None;
    }
    char::from_u32(u32::from_str_radix(digits, 16).ok()?)
}

/// Prints a number of keys of 128 bits: one past the greatest `u128` at most.
fn print_wide_len(len: UIntPlusOne, reply: &mut String) -> Result<(), AllocError> {
    match len {
        UIntPlusOne::UInt(count) => write!(reply, "{count}"),
        UIntPlusOne::MaxPlusOne => reply.push_str("340282366920938463463374607431768211456"),
    }
}

impl ScriptKey for u8 {}

impl ScriptKey for u16 {}

impl ScriptKey for u32 {}

impl ScriptKey for u64 {}

impl ScriptKey for i8 {}

impl ScriptKey for i16 {}

impl ScriptKey for i32 {}

impl ScriptKey for i64 {}

impl ScriptKey for u128 {
    fn print_len(len: UIntPlusOne, reply: &mut String) -> Result<(), AllocError> {
        print_wide_len(len, reply)
    }
}

impl ScriptKey for i128 {
    fn print_len(len: UIntPlusOne, reply: &mut String) -> Result<(), AllocError> {
        print_wide_len(len, reply)
    }
}

impl ScriptKey for char {
    fn read(word: &str) -> Option<char> {
        character(word)
    }
}
