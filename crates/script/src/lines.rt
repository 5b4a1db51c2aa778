//! The lines of a script.
use std::alloc::{AllocError, Global};
use std::io;
use std::io::{BufRead, BufReader, Read};

/// A key type's name.
#[derive(Clone, Copy)]
pub enum KeyType {
    U8,
    U16,
    U32,
    U64,
    U128,
    I8,
    I16,
    I32,
    I64,
    I128,
    Char,
}

impl KeyType {
    /// The key type of a word.
    fn read(word: &str) -> Option<Self> {
        match word {
            "u8" => Some(KeyType::U8),
            "u16" => Some(KeyType::U16),
            "u32" => Some(KeyType::U32),
            "u64" => Some(KeyType::U64),
            "u128" => Some(KeyType::U128),
            "i8" => Some(KeyType::I8),
            "i16" => Some(KeyType::I16),
            "i32" => Some(KeyType::I32),
            "i64" => Some(KeyType::I64),
            "i128" => Some(KeyType::I128),
            "char" => Some(KeyType::Char),
            _ => None,
        }
    }
}

/// The kind of a line.
#[derive(Clone, Copy)]
pub enum Line<'a> {
    /// The end of the lines.
    End,
    /// An empty line or a comment.
    Nothing,
    /// A key type, for which all maps and sets begin empty.
    Keys(KeyType),
    /// Any other text.
    Text(&'a str),
    /// No text.
    Bytes,
}

/// The lines of a reader.
#[derive(Drop)]
pub struct Lines<R: Read + Drop> {
    reader: BufReader<R>,
    bytes: Vec<u8>,
    number: u64,
}

impl<R: Read + Drop> Lines<R> {
    /// All lines of a reader.
    pub fn new(alloc: Global, reader: R) -> io::Result<Self> {
        Ok(Lines {
            reader: BufReader::new(alloc, reader)?,
            bytes: Vec::new(alloc),
            number: 0,
        })
    }

    /// The number of the last line, from 1.
    pub fn number(&self) -> u64 {
        self.number
    }

    /// The next line, without its line feed.
    pub fn next_line(&mut self) -> io::Result<Line<'_>> {
        self.bytes.clear();
        if self.reader.read_until(b'\n', &mut self.bytes)? == 0 {
            return Ok(Line::End);
        }
        self.number = self.number.saturating_add(1);
        let bytes = self.bytes.as_slice();
        Ok(kind(bytes.strip_suffix(b"\n").unwrap_or(bytes)))
    }
}

/// The kind of a line, by its bytes.
fn kind(bytes: &[u8]) -> Line<'_> {
    if bytes.is_empty() || bytes.starts_with(b"#") {
        return Line::Nothing;
    }
    let Ok(text) = str::from_utf8(bytes) else {
        return Line::Bytes;
    };
    match text.strip_prefix("keys ") {
        Some(word) => match KeyType::read(word) {
            Some(key_type) => Line::Keys(key_type),
            None => Line::Bytes,
        },
        None => Line::Text(text),
    }
}
