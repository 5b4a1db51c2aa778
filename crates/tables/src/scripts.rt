//! The scripts of characters, read from the lines of the Unicode file Scripts.txt. It prints the number of characters
//! of each script, and the numbers of entries and gaps of the map. For each line `? WORD` it prints the script of each
//! character of the word. The Debian package unicode-data has the table as /usr/share/unicode/Scripts.txt.

use demo_lines::{Fault, Table, content, hexadecimal, length};
use range_map_blaze::RangeMapBlaze;
use std::alloc::Global;
use std::collections::BTreeMap;

/// The scripts of characters, and the words of the queries.
#[derive(Drop)]
pub struct Scripts {
    map: RangeMapBlaze<char, String>,
    words: Vec<String>,
}

/// Returns the character at a code point, or `next` if the code point is a surrogate, which is no character.
fn character(point: u64, next: char) -> Option<char> {
    match u32::try_from(point).ok()? {
        0xD800..=0xDFFF => Some(next),
        point => char::from_u32(point),
    }
}

/// Parses a line `START..END ; SCRIPT` or `POINT ; SCRIPT`: the first and the last character, and the script. A range
/// that begins or ends among surrogates begins or ends at the character next to them.
fn read(text: &str) -> Option<(char, char, &str)> {
    let (points, script) = text.split_once(';')?;
    let (points, script) = (points.trim(), script.trim());
    let (start, end) = points.split_once("..").unwrap_or((points, points));
    let (start, end) = (hexadecimal(start)?, hexadecimal(end)?);
    if end < start || script.is_empty() {
        return None;
    }
    let (first, last) = (character(start, '\u{E000}')?, character(end, '\u{D7FF}')?);
    Some((first, last, script))
}

/// Prints the number of characters of each script, in the order of the scripts' names.
fn print_sizes(rt: &HostRuntime, map: &RangeMapBlaze<char, String>) -> Result<(), Fault> {
    let mut sizes = BTreeMap::new(rt.alloc());
    for (range, script) in map.range_values() {
        let size = sizes.entry(script.clone()?)?.or_insert(0u32);
        *size = size.saturating_add(length(&range));
    }
    for (script, size) in sizes.iter() {
        println!(rt; "{script} {size}")?;
    }
    Ok(())
}

/// Prints each character of a word with its script.
fn print_word(
    rt: &HostRuntime,
    map: &RangeMapBlaze<char, String>,
    word: &str,
) -> Result<(), Fault> {
    for character in word.chars() {
        let script = map
            .get(character)
            .map_or("Unknown", |script| script.as_str());
        println!(rt; "{character} {script}")?;
    }
    Ok(())
}

impl Scripts {
    /// Returns an empty table.
    pub fn new(alloc: Global) -> Scripts {
        Scripts {
            map: RangeMapBlaze::new(alloc),
            words: Vec::new(alloc),
        }
    }
}

impl Table for Scripts {
    fn add(&mut self, rt: &HostRuntime, line: &str) -> Result<(), Fault> {
        if let Some(word) = line.strip_prefix("? ") {
            self.words.push(String::from_str(rt.alloc(), word)?)?;
        } else if let Some(text) = content(line) {
            let (first, last, script) = read(text).ok_or(Fault::Line)?;
            let script = String::from_str(rt.alloc(), script)?;
            let _ = self.map.ranges_insert(first..=last, script)?;
        }
        Ok(())
    }

    fn print(&mut self, rt: &HostRuntime) -> Result<(), Fault> {
        let (entries, characters) = (self.map.ranges_len(), self.map.len());
        let gaps = (!&self.map)?.ranges_len();
        println!(rt; "{characters} characters, {entries} entries, {gaps} gaps")?;
        print_sizes(rt, &self.map)?;
        for word in self.words.iter() {
            print_word(rt, &self.map, word.as_str())?;
        }
        Ok(())
    }
}
