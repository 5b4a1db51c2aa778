//! A first map: three address blocks and their owners, painted one over another.
#![tactic(auto)]

use range_map_blaze::RangeMapBlaze;
use std::alloc::AllocError;
use std::process::ExitCode;

/// Prints what a few calls return.
fn run(rt: &HostRuntime) -> Result<(), AllocError> {
    let mut map: RangeMapBlaze<u32, &'static str> = RangeMapBlaze::new(rt.alloc());
    let grew = map.ranges_insert(10..=49, "north")?;
    let _ = println!(rt; "{grew}: {map}");
    let grew = map.ranges_insert(20..=29, "south")?;
    let _ = println!(rt; "{grew}: {map}");
    let _ = map.ranges_insert(30..=49, "south")?;
    let _ = println!(rt; "{map}");
    let owner = map.get(35).copied().unwrap_or("nobody");
    let (gap, _) = map.range_or_gap_at(60);
    let _ = println!(rt; "35: {owner}; free: {gap:?}; {} keys", map.len());
    Ok(())
}

fn main(rt: HostRuntime) -> ExitCode {
    match run(&rt) {
        Ok(()) => ExitCode::SUCCESS,
        Err(_) => ExitCode::FAILURE,
    }
}
