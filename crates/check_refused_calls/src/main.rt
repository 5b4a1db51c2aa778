//! Calls of tables, sets, lists, streams, carriers and many owned maps. Each prints a line with its result and the
//! state after it. Each call is made between the lines `begin` and `end` of standard error. tests/refused_calls.sh
//! makes each allocation between them fail, one in each run. Then the call's line says so, and all other lines are
//! unchanged.
#![tactic(auto)]

mod calls;
mod carriers;
mod changes;
mod joins;
mod lists;
mod many;
mod streams;
mod tables;

use std::alloc::AllocError;
use std::process::ExitCode;

/// Makes all calls.
fn run(rt: &HostRuntime) -> Result<(), AllocError> {
    changes::all(rt)?;
    lists::all(rt)?;
    streams::all(rt)?;
    joins::all(rt)?;
    carriers::all(rt)?;
    many::all(rt)
}

fn main(rt: HostRuntime) -> ExitCode {
    match run(&rt) {
        Ok(()) => ExitCode::SUCCESS,
        Err(_) => ExitCode::FAILURE,
    }
}
