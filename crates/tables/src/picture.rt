//! A picture of a map, read from lines `LO HI WORD` that are painted in order. Each entry, and each gap between two
//! entries, is a bar of text. If the first line is `svg`, the picture is an SVG with a legend. An example is
//! tests/tables/picture.stdin.

mod svg;

use demo_lines::{Fault, Table, content, length};
use range_map_blaze::RangeMapBlaze;
use std::alloc::Global;
use std::ops::RangeInclusive;

/// The width of a text picture, in characters.
const WIDTH: usize = 50;

/// The words of a map, with `None` in the gaps between two entries.
pub type Shown = RangeMapBlaze<i64, Option<String>>;

/// The input of a picture.
#[derive(Drop)]
pub struct Picture {
    map: RangeMapBlaze<i64, String>,
    /// Whether the picture is an SVG. The first line decides it.
    is_svg: Option<bool>,
}

/// Parses a line `LO HI WORD`: the first and the last key, and the word.
fn read(text: &str) -> Option<(i64, i64, &str)> {
    let (first, rest) = text.split_once(' ')?;
    let (last, word) = rest.split_once(' ')?;
    if word.is_empty() || !word.bytes().all(|byte| byte.is_ascii_alphanumeric()) {
        return None;
    }
    Some((first.parse::<i64>().ok()?, last.parse::<i64>().ok()?, word))
}

/// Returns the position of a range's bar and its width, which is at least 1, in a picture of the given width.
pub fn place(shown: &Shown, keys: &RangeInclusive<i64>, width: usize) -> (usize, usize) {
    let first = shown.first_key_value().map_or(0, |(first, _)| first);
    let until = |keys: u128| {
        let place = keys.saturating_mul(width as u128).checked_div(shown.len());
        place.unwrap_or(0).min(width as u128) as usize
    };
    let left = until(length(&(first..=*keys.start())).saturating_sub(1));
    let right = until(length(&(first..=*keys.end())));
    (left, right.saturating_sub(left).max(1))
}

/// Prints the line of an entry or a gap: the bar at its position, the range and the word.
fn print_bar(
    rt: &HostRuntime,
    shown: &Shown,
    keys: RangeInclusive<i64>,
    word: Option<&String>,
) -> Result<(), Fault> {
    let (left, width) = place(shown, &keys, WIDTH);
    let right = WIDTH.saturating_sub(left.saturating_add(width));
    match word {
        Some(word) => println!(rt; "{:left$}{:#<width$}{:right$} {keys:?} {word}", "", "", "")?,
        None => println!(rt; "{:left$}{:.<width$}{:right$} {keys:?} -", "", "", "")?,
    }
    Ok(())
}

/// Prints a line for each entry and each gap.
fn print_text(rt: &HostRuntime, shown: &Shown) -> Result<(), Fault> {
    for (keys, word) in shown.range_values() {
        print_bar(rt, shown, keys, word.as_ref())?;
    }
    Ok(())
}

impl Picture {
    /// Returns an empty table.
    pub fn new(alloc: Global) -> Picture {
        Picture {
            map: RangeMapBlaze::new(alloc),
            is_svg: None,
        }
    }
}

impl Table for Picture {
    fn add(&mut self, rt: &HostRuntime, line: &str) -> Result<(), Fault> {
        let Some(text) = content(line) else {
            return Ok(());
        };
        if self.is_svg.is_none() {
            self.is_svg = Some(text == "svg");
            if text == "svg" {
                return Ok(());
            }
        }
        let (first, last, word) = read(text).ok_or(Fault::Line)?;
        let word = String::from_str(rt.alloc(), word)?;
        let _ = self.map.ranges_insert(first..=last, word)?;
        Ok(())
    }

    fn print(&mut self, rt: &HostRuntime) -> Result<(), Fault> {
        let mut shown = self.map.fill_gaps()?;
        shown.ranges_retain(|keys, word| {
            word.is_some() || (*keys.start() != i64::MIN && *keys.end() != i64::MAX)
        });
        match self.is_svg {
            Some(true) => svg::print(rt, &shown),
            _ => print_text(rt, &shown),
        }
    }
}
