//! Calls that change a table. If an allocation fails, the entries and the number of keys are unchanged.
use crate::calls::{begin, end};
use crate::tables::{Words, leaf, print_table, show_table, table_of};
use std::alloc::{AllocError, Global};

/// Returns the word that is painted.
fn word(alloc: Global) -> Result<String, AllocError> {
    String::from_str(alloc, "b")
}

/// Paints a range inside the first entry.
fn paint(rt: &HostRuntime, mut table: Words, word: String) {
    begin(rt, "paint");
    let answer = table.paint(4, 5, word);
    end(rt);
    let _ = print!(rt; " {answer:?},");
    show_table(rt, &table);
}

/// Paints a range inside the first entry, with single lookups.
fn paint_by_splice(rt: &HostRuntime, mut table: Words, word: String) {
    begin(rt, "paint_by_splice");
    let answer = table.paint_by_splice(4, 5, word);
    end(rt);
    let _ = print!(rt; " {answer:?},");
    show_table(rt, &table);
}

/// Inserts a key inside the first entry.
fn insert(rt: &HostRuntime, mut table: Words, word: String) {
    begin(rt, "insert");
    let answer = table.insert(4, word);
    end(rt);
    let _ = print!(rt; " {answer:?},");
    show_table(rt, &table);
}

/// Sets a word at the keys that have none: below two entries, between them and above.
fn fill_absent(rt: &HostRuntime, mut table: Words, word: String) {
    begin(rt, "fill_absent");
    let answer = table.fill_absent(0, 9, word);
    end(rt);
    let _ = print!(rt; " {answer:?},");
    show_table(rt, &table);
}

/// Removes a key of the first entry.
fn cut_key(rt: &HostRuntime, mut table: Words) {
    begin(rt, "cut_key");
    let answer = table.cut_key(4);
    end(rt);
    let _ = print!(rt; " {answer:?},");
    show_table(rt, &table);
}

/// Removes a range of the first entry.
fn cut_range(rt: &HostRuntime, mut table: Words) {
    begin(rt, "cut_range");
    let answer = table.cut_range(3, 5);
    end(rt);
    let _ = print!(rt; " {answer:?},");
    show_table(rt, &table);
}

/// Removes the first key.
fn pop_first(rt: &HostRuntime, mut table: Words) {
    begin(rt, "pop_first");
    let answer = table.pop_first();
    end(rt);
    let _ = print!(rt; " {answer:?},");
    show_table(rt, &table);
}

/// Removes the last key.
fn pop_last(rt: &HostRuntime, mut table: Words) {
    begin(rt, "pop_last");
    let answer = table.pop_last();
    end(rt);
    let _ = print!(rt; " {answer:?},");
    show_table(rt, &table);
}

/// Splits a table inside an entry, and prints the part from the key on, then the part below it.
fn split_at(rt: &HostRuntime, mut table: Words) {
    begin(rt, "split_at");
    let above = table.split_at(24);
    end(rt);
    show_parts(rt, &above, &table);
}

/// Takes the part from a key inside an entry on, and prints it, then the part below the key.
fn part_from(rt: &HostRuntime, mut table: Words) {
    begin(rt, "part_from");
    let above = table.part_from(24);
    end(rt);
    show_parts(rt, &above, &table);
}

/// Takes the part below a key inside an entry, and prints it, then the part from the key on.
fn part_below(rt: &HostRuntime, mut table: Words) {
    begin(rt, "part_below");
    let below = table.part_below(24);
    end(rt);
    show_parts(rt, &below, &table);
}

/// Prints the part that a call removed from a table, then what is left in the table.
fn show_parts(rt: &HostRuntime, removed: &Result<Words, AllocError>, table: &Words) {
    match removed {
        Ok(part) => print_table(rt, part),
        Err(_) => {
            let _ = print!(rt; " refused");
        }
    }
    let _ = print!(rt; ", left:");
    show_table(rt, table);
}

/// Keeps all keys except one.
fn retain_keys(rt: &HostRuntime, mut table: Words) {
    begin(rt, "retain_keys");
    let answer = table.retain_keys(|key, _| *key != 4);
    end(rt);
    let _ = print!(rt; " {answer:?},");
    show_table(rt, &table);
}

/// Makes the paints and insertions on a table of `count` entries.
fn paints(rt: &HostRuntime, count: i32) -> Result<(), AllocError> {
    let alloc = rt.alloc();
    paint(rt, leaf(alloc, count)?, word(alloc)?);
    paint_by_splice(rt, leaf(alloc, count)?, word(alloc)?);
    insert(rt, leaf(alloc, count)?, word(alloc)?);
    Ok(())
}

/// Makes a fill of three gaps.
fn fills(rt: &HostRuntime) -> Result<(), AllocError> {
    let word = String::from_str(rt.alloc(), "z")?;
    let table = table_of(rt.alloc(), &[(2, 3, "a"), (6, 6, "b")])?;
    fill_absent(rt, table, word);
    Ok(())
}

/// Makes all calls of this file. A paint inside an entry inserts two entries into a tree leaf with room for one more,
/// and for none. A cut inserts one into a leaf without room.
pub fn all(rt: &HostRuntime) -> Result<(), AllocError> {
    paints(rt, 14)?;
    paints(rt, 15)?;
    fills(rt)?;
    let alloc = rt.alloc();
    cut_key(rt, leaf(alloc, 15)?);
    cut_range(rt, leaf(alloc, 15)?);
    pop_first(rt, leaf(alloc, 2)?);
    pop_last(rt, leaf(alloc, 2)?);
    split_at(rt, leaf(alloc, 3)?);
    part_from(rt, leaf(alloc, 3)?);
    part_below(rt, leaf(alloc, 3)?);
    retain_keys(rt, leaf(alloc, 2)?);
    Ok(())
}
