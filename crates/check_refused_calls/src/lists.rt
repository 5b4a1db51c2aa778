//! Tables and sets built from lists, a clone of a table, and the segments of lists.
use crate::calls::{begin, end, show_answer, show_refused};
use crate::tables::{Words, leaf, show_table};
use blaze_streams::{Segment, segments};
use blaze_table::{RangeSetBlaze, RangeTable, canonical_of};
use std::alloc::{AllocError, Global};

/// Clones a table.
fn clone(rt: &HostRuntime, table: &Words) {
    begin(rt, "clone");
    let made = table.clone();
    end(rt);
    match &made {
        Ok(copy) => show_table(rt, copy),
        Err(_) => show_refused(rt),
    }
}

/// Builds a table from a canonical list of two entries.
#[tactic(auto, unfolding(blaze_entries::specs::Canonical::IsRunStart, blaze_entries::specs::Canonical::IsRunEnd))]
fn from_canonical(rt: &HostRuntime) -> Result<(), AllocError> {
    let entries = vec![in rt.alloc(); (0i32, 3i32, 'a'), (4, 4, 'b')]?;
    begin(rt, "from_canonical");
    let made = RangeTable::from_canonical(rt.alloc(), entries);
    end(rt);
    match &made {
        Ok(table) => {
            let _ = print!(rt; " {:?} {:?},", table.first(), table.last());
            let _ = println!(rt; " {} entries, {} keys", table.entries(), table.len());
        }
        Err(_) => show_refused(rt),
    }
    Ok(())
}

/// Returns two pairs, of which the second is painted inside the first.
fn pairs(alloc: Global) -> Result<Vec<(i32, i32, String)>, AllocError> {
    let outer = String::from_str(alloc, "a")?;
    let inner = String::from_str(alloc, "b")?;
    let pairs = vec![in alloc; (0, 9, outer), (3, 4, inner)]?;
    Ok(pairs)
}

/// Builds the canonical list of pairs. The first pair's word is cloned for its second piece.
fn canonical(rt: &HostRuntime) -> Result<(), AllocError> {
    let pairs = pairs(rt.alloc())?;
    begin(rt, "canonical_of");
    let made = canonical_of(rt.alloc(), pairs);
    end(rt);
    show_answer(rt, made);
    Ok(())
}

/// Builds a set from ranges that do not ascend.
fn from_ranges(rt: &HostRuntime) -> Result<(), AllocError> {
    let ranges = vec![in rt.alloc(); 8i32..=9, 1..=2, 2..=6]?;
    begin(rt, "from_ranges");
    let made = RangeSetBlaze::from_ranges(rt.alloc(), ranges);
    end(rt);
    match &made {
        Ok(set) => {
            let _ = println!(rt; " {set}, {} ranges, {} keys", set.ranges_len(), set.len());
        }
        Err(_) => show_refused(rt),
    }
    Ok(())
}

/// Ends the line of a call with the segments that it returned.
fn show_segments(rt: &HostRuntime, made: Result<Vec<Segment<i32>>, AllocError>) {
    let Ok(made) = made else {
        return show_refused(rt);
    };
    for segment in made {
        let _ = print!(rt; " {}..={} {:?},", segment.lo, segment.hi, segment.at);
    }
    let _ = println!(rt; " end");
}

/// Returns the segments of two lists with one range each.
fn two_lists(rt: &HostRuntime) -> Result<(), AllocError> {
    let alloc = rt.alloc();
    let first = vec![in alloc; (0, 9)]?;
    let second = vec![in alloc; (5, 14)]?;
    let lists = vec![in alloc; first, second]?;
    begin(rt, "segments");
    let made = segments(alloc, &lists);
    end(rt);
    show_segments(rt, made);
    Ok(())
}

/// Makes all calls of this file.
pub fn all(rt: &HostRuntime) -> Result<(), AllocError> {
    clone(rt, &leaf(rt.alloc(), 2)?);
    from_canonical(rt)?;
    canonical(rt)?;
    from_ranges(rt)?;
    two_lists(rt)
}
