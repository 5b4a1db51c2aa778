//! Programs over tables. The only argument says which table standard input has: scripts, regions, ports, calendar,
//! routes or picture.
#![tactic(auto)]

mod calendar;
mod picture;
mod ports;
mod regions;
mod routes;
mod scripts;

use demo_lines::{Fault, run};
use std::process::ExitCode;
use std::{env, io};

/// The exit status for wrong arguments.
const USAGE: u8 = 2;

/// Returns the only argument, or `None` if the number of arguments is not 1 or an argument is not text.
fn only_argument(rt: &HostRuntime) -> Result<Option<String>, Fault> {
    let mut args = match env::args(rt) {
        Ok(args) => args,
        Err(fault) if fault.kind() == io::ErrorKind::InvalidData => return Ok(None),
        Err(fault) => return Err(Fault::from(fault)),
    };
    let _program = args.next();
    let first = args.next();
    Ok(if args.next().is_none() { first } else { None })
}

/// Runs the program of a word. Returns its exit status, or that for wrong arguments if no program has this word.
fn run_program(rt: &HostRuntime, word: &str) -> ExitCode {
    match word {
        "scripts" => run(rt, scripts::Scripts::new(rt.alloc())),
        "regions" => run(rt, regions::Regions::new(rt.alloc())),
        "ports" => run(rt, ports::Ports::new(rt.alloc())),
        "calendar" => run(rt, calendar::Calendar::new(rt.alloc())),
        "routes" => run(rt, routes::Routes::new(rt.alloc())),
        "picture" => run(rt, picture::Picture::new(rt.alloc())),
        _ => {
            let _ = eprintln!(rt;
                "usage: tables scripts|regions|ports|calendar|routes|picture < TABLE"
            );
            ExitCode::from(USAGE)
        }
    }
}

fn main(rt: HostRuntime) -> ExitCode {
    match only_argument(&rt) {
        Ok(word) => run_program(&rt, word.as_ref().map_or("", |word| word.as_str())),
        Err(fault) => ExitCode::from(fault as u8),
    }
}
