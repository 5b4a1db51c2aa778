//! Makes the calls of the lines of a script, and prints their results.
#![tactic(auto)]

mod calls;
mod lines;
mod script;

use crate::script::run;
use std::process::ExitCode;
use std::{env, io};

/// The exit status for an unknown argument.
const USAGE: u8 = 2;

/// The exit status for an I/O error.
const FAULT: u8 = 1;

/// The exit status if an allocation failed while the script was read.
const REFUSED: u8 = 3;

/// The request of the arguments.
enum Asked {
    /// To make each call of the script.
    Run,
    /// To mark the call of a line too.
    Mark(u64),
    /// An unknown argument.
    Unknown,
}

/// The request of the arguments: none, or `mark` and a line's number. An argument that is not text is unknown.
fn read_arguments(rt: &HostRuntime) -> io::Result<Asked> {
    let mut args = match env::args(rt) {
        Ok(args) => args,
        Err(fault) if fault.kind() == io::ErrorKind::InvalidData => return Ok(Asked::Unknown),
        Err(fault) => return Err(fault),
    };
    let _program = args.next();
    let Some(first) = args.next() else {
        return Ok(Asked::Run);
    };
    let Some(second) = args.next() else {
        return Ok(Asked::Unknown);
    };
    if args.next().is_some() || first.as_str() != "mark" {
        return Ok(Asked::Unknown);
    }
    match second.parse::<u64>() {
        Ok(line) if !second.starts_with('+') => Ok(Asked::Mark(line)),
        _ => Ok(Asked::Unknown),
    }
}

fn main(rt: HostRuntime) -> ExitCode {
    let status = match read_arguments(&rt) {
        Ok(Asked::Run) => run(&rt, None),
        Ok(Asked::Mark(line)) => run(&rt, Some(line)),
        Ok(Asked::Unknown) => {
            let _ = eprintln!(rt; "usage: script [mark LINE] < FILE");
            Ok(USAGE)
        }
        Err(fault) => Err(fault),
    };
    ExitCode::from(match status {
        Ok(status) => status,
        Err(fault) if fault.kind() == io::ErrorKind::OutOfMemory => REFUSED,
        Err(_) => FAULT,
    })
}
