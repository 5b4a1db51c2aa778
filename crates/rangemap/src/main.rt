//! Answers the lines of standard input about a range map on standard output, up to the end or an invalid line.
#![tactic(auto)]

ghost use Rattle.std.specs.Prelude.{◌≡◌, ◌↔◌, ◌⊎◌};

use range_map_cli::{End, serve};
use std::process::ExitCode;

/// The exit status of an end.
fn status(end: End) -> u8
    ensures done { (result ≡ 0) ↔ (end ≡ End.Done) }
    ensures fault { (result ≡ 1) ↔ ((end ≡ End.ReadFault) ⊎ (end ≡ End.WriteFault)) }
    ensures bad_line { (result ≡ 2) ↔ (end ≡ End.BadLine) }
    ensures no_memory { (result ≡ 3) ↔ (end ≡ End.NoMemory) }
{
    match end {
        End::Done => 0,
        End::ReadFault | End::WriteFault => 1,
        End::BadLine => 2,
        End::NoMemory => 3,
    }
}

fn main(rt: HostRuntime) -> ExitCode {
    let end = serve(rt.alloc(), &mut rt.stdin(), &mut rt.stdout());
    ExitCode::from(status(end))
}
