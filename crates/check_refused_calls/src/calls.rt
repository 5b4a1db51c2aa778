//! The begin and the end of a call, and its result.
use std::alloc::AllocError;
use std::fmt::Debug;

/// Announces a call, and begins its line.
pub fn begin(rt: &HostRuntime, call: &str) {
    let _ = print!(rt; "{call}:");
    let _ = eprintln!(rt; "begin");
}

/// Announces the end of a call.
pub fn end(rt: &HostRuntime) {
    let _ = eprintln!(rt; "end");
}

/// Ends the line of a call in which an allocation failed.
pub fn show_refused(rt: &HostRuntime) {
    let _ = println!(rt; " refused");
}

/// Ends the line of a call with its result.
pub fn show_answer<X: Debug + Drop>(rt: &HostRuntime, answer: Result<X, AllocError>) {
    match answer {
        Ok(made) => {
            let _ = println!(rt; " {made:?}");
        }
        Err(_) => show_refused(rt),
    }
}
