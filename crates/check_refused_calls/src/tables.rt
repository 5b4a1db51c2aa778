//! The tables for the calls. Their values are words, since a clone of a word allocates.
use blaze_table::RangeTable;
use std::alloc::{AllocError, Global};

/// A table of words.
pub type Words = RangeTable<i32, String>;

/// Paints a word over a range. A range without a key is skipped.
fn paint_word(table: &mut Words, start: i32, end: i32, text: &str) -> Result<(), AllocError> {
    let word = String::from_str(table.allocator(), text)?;
    if start <= end {
        let _ = table.paint(start, end, word)?;
    }
    Ok(())
}

/// Returns a table of ranges that are painted in order.
pub fn table_of(alloc: Global, ranges: &[(i32, i32, &str)]) -> Result<Words, AllocError> {
    let mut table = RangeTable::new(alloc);
    for (start, end, text) in ranges {
        paint_word(&mut table, *start, *end, text)?;
    }
    Ok(table)
}

/// Returns a table of `count` entries with the word `a`. Each entry has ten keys, and they start at 0, 20, 40 and so
/// on. A leaf of a table's tree has room for 15 entries.
pub fn leaf(alloc: Global, count: i32) -> Result<Words, AllocError> {
    let mut table = RangeTable::new(alloc);
    for place in 0..count {
        let start = place.wrapping_mul(20);
        paint_word(&mut table, start, start.wrapping_add(9), "a")?;
    }
    Ok(table)
}

/// Prints all entries of a table, and its numbers of entries and keys.
pub fn print_table(rt: &HostRuntime, table: &Words) {
    for (start, end, word) in table.iter() {
        let _ = print!(rt; " {start}..={end} {word},");
    }
    let _ = print!(rt; " {} entries, {} keys", table.entries(), table.len());
}

/// Ends the line of a call with a table.
pub fn show_table(rt: &HostRuntime, table: &Words) {
    print_table(rt, table);
    let _ = println!(rt; "");
}
