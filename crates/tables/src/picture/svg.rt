//! SVG pictures.
use crate::picture::{Shown, place};
use demo_lines::Fault;
use std::alloc::{AllocError, Global};
use std::collections::BTreeMap;
use std::ops::RangeInclusive;

/// The total width of the bars, in pixels.
const WIDTH: usize = 600;

/// The greatest width of a label's character, in pixels.
const CHARACTER: usize = 9;

/// The colours of words, in the order of their first occurrence. After the last colour the first is used again.
const COLOURS: [&str; 6] = [
    "#4e79a7", "#f28e2b", "#59a14f", "#e15759", "#b07aa1", "#9c755f",
];

/// The words in the order of their first occurrence, and the position of each.
#[derive(Drop)]
struct Legend<'a> {
    words: Vec<&'a str>,
    places: BTreeMap<&'a str, usize>,
}

/// Returns the legend of a map's words. O(n log n) with n entries.
fn legend_of(alloc: Global, shown: &Shown) -> Result<Legend<'_>, AllocError> {
    let mut words = Vec::new(alloc);
    let mut places = BTreeMap::new(alloc);
    for (_, word) in shown.range_values() {
        if let Some(word) = word
            && !places.contains_key(word.as_str())
        {
            places.insert(word.as_str(), words.len())?;
            words.push(word.as_str())?;
        }
    }
    Ok(Legend { words, places })
}

/// Returns the colour of a word. A gap has none.
fn fill_of(legend: &Legend<'_>, word: Option<&String>) -> &'static str {
    match word.and_then(|word| legend.places.get(word.as_str())) {
        Some(place) => COLOURS[*place % COLOURS.len()],
        None => "none",
    }
}

/// Prints the range of an entry inside its bar, if the bar is wide enough.
fn print_label(
    rt: &HostRuntime,
    keys: RangeInclusive<i64>,
    x: usize,
    width: usize,
) -> Result<(), Fault> {
    let label = format!(in rt.alloc(); "{keys:?}")?;
    if label.len().saturating_mul(CHARACTER) <= width {
        let middle = x.saturating_add(width / 2);
        println!(rt;
            "<text x=\"{middle}\" y=\"45\" text-anchor=\"middle\" fill=\"#fff\">{label}</text>"
        )?;
    }
    Ok(())
}

/// Prints the bars, and the ranges of entries inside the bars that are wide enough.
fn print_bars(rt: &HostRuntime, shown: &Shown, legend: &Legend<'_>) -> Result<(), Fault> {
    for (keys, word) in shown.range_values() {
        let (left, width) = place(shown, &keys, WIDTH);
        let (x, fill) = (left.saturating_add(20), fill_of(legend, word.as_ref()));
        println!(rt;
            "<rect x=\"{x}\" y=\"20\" width=\"{width}\" height=\"40\" fill=\"{fill}\" stroke=\"#888\"/>"
        )?;
        if word.is_some() {
            print_label(rt, keys, x, width)?;
        }
    }
    Ok(())
}

/// Prints the line of a word in the legend.
fn print_word(rt: &HostRuntime, place: usize, word: &str) -> Result<(), Fault> {
    let y = place.saturating_mul(22).saturating_add(80);
    let (base, fill) = (y.saturating_add(12), COLOURS[place % COLOURS.len()]);
    println!(rt; "<rect x=\"20\" y=\"{y}\" width=\"14\" height=\"14\" fill=\"{fill}\"/>")?;
    println!(rt; "<text x=\"42\" y=\"{base}\" fill=\"#888\">{word}</text>")?;
    Ok(())
}

/// Prints the picture: a bar for each entry and each gap, and below them the words with their colours.
pub fn print(rt: &HostRuntime, shown: &Shown) -> Result<(), Fault> {
    let legend = legend_of(rt.alloc(), shown)?;
    let height = legend.words.len().saturating_mul(22).saturating_add(90);
    println!(rt;
        "<svg xmlns=\"http://www.w3.org/2000/svg\" width=\"640\" height=\"{height}\" font-family=\"sans-serif\" font-size=\"14\">"
    )?;
    print_bars(rt, shown, &legend)?;
    for (place, word) in legend.words.iter().enumerate() {
        print_word(rt, place, word)?;
    }
    println!(rt; "</svg>")?;
    Ok(())
}
