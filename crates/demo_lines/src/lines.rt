//! The lines of a table.
ghost use Rattle.std.specs.Prelude.{◌<◌, IfSome, length};

use crate::fault::Fault;
use std::io::{BufRead, BufReader};
use std::process::ExitCode;

/// A table that is read line by line.
pub trait Table {
    /// Adds a line, given without its end, LF or CRLF. It returns `Fault::Line` if the line is invalid.
    fn add(&mut self, rt: &HostRuntime, line: &str) -> Result<(), Fault>;

    /// Prints the table's results, after all lines are added.
    fn print(&mut self, rt: &HostRuntime) -> Result<(), Fault>;
}

/// Reads standard input into a table, line by line, and prints the table's results. An invalid line ends the program:
/// it prints `line N: TEXT` to standard error, where N counts from 1, and reads nothing more. The exit status is 0, or
/// that of the fault.
pub fn run<T: Table + Drop>(rt: &HostRuntime, mut table: T) -> ExitCode {
    match answer(rt, &mut table) {
        Ok(()) => ExitCode::SUCCESS,
        Err(fault) => ExitCode::from(fault as u8),
    }
}

/// Returns the text of a line before a comment, which begins with `#`, without the white space around it. It returns
/// `None` if no text remains.
pub fn content(line: &str) -> Option<&str>
    ensures { IfSome result (λ text. 0 < length text.now) }
{
    let text = line
        .split_once('#')
        .map_or(line, |(text, _comment)| text)
        .trim();
    if text.is_empty() { None } else { Some(text) }
}

// Reads standard input into a table, and prints the table's results.
fn answer<T: Table>(rt: &HostRuntime, table: &mut T) -> Result<(), Fault> {
    let mut reader = BufReader::new(rt.alloc(), rt.stdin())?;
    let mut bytes = Vec::new(rt.alloc());
    for number in 1..u64::MAX {
        bytes.clear();
        if reader.read_until(b'\n', &mut bytes)? == 0 {
            break;
        }
        let line = bytes.as_slice();
        let line = line.strip_suffix(b"\n").unwrap_or(line);
        add(rt, table, number, line.strip_suffix(b"\r").unwrap_or(line))?;
    }
    table.print(rt)
}

// Adds the bytes of a line, and reports an invalid one.
fn add<T: Table>(rt: &HostRuntime, table: &mut T, number: u64, line: &[u8]) -> Result<(), Fault> {
    let taken = match str::from_utf8(line) {
        Ok(text) => table.add(rt, text),
        Err(_) => Err(Fault::Line),
    };
    if let Err(Fault::Line) = taken {
        let text = String::from_utf8_lossy(rt.alloc(), line)?;
        eprintln!(rt; "line {number}: {text}")?;
    }
    taken
}
