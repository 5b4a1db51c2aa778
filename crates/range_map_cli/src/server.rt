//! Answers a reader's lines to a writer.
ghost use Rattle.std.specs.Prelude.{◌≡◌};
ghost use Rattle.range_map_cli.specs.Output.{Serves, Streams, StopsReading};

use crate::End;
use crate::output::flush;
use crate::session::{Session, feed, finish};
use std::alloc::Global;
use std::io::{Read, Write};

/// How many bytes a read asks for.
const CHUNK: usize = 8192;

/// Answers each line of the input as it comes, until the end of the input or an invalid line. The range map is empty at first.
///
/// The answers to the lines that end in the bytes of one read are written before the next read. No read follows the one in which
/// an invalid line ends. A read or a write that fails is not tried again. However it ends, only answers to lines that were read
/// are written. A text without requests needs no memory.
pub fn serve<R: Read, W: Write>(alloc: Global, input: &mut R, output: &mut W) -> End
    ensures closes { Serves (W.contents output.old) (W.contents output.new) (R.remaining input.old)
        (R.remaining input.new) result }
    ensures stops { result ≡ End.BadLine
        → StopsReading (R.remaining input.old) (R.remaining input.new) }
    ensures streams { result ≡ End.ReadFault
        → Streams (W.contents output.old) (W.contents output.new) (R.remaining input.old)
        (R.remaining input.new) }
{
    let mut session = Session::new(alloc);
    let mut chunk = [0u8; CHUNK];
    for _turn in 0..u64::MAX {
        let Ok(count) = input.read(&mut chunk) else {
            return End::ReadFault;
        };
        if count == 0 {
            return finish(&mut session, alloc, output);
        }
        if let Err(end) = feed(&mut session, alloc, output, &chunk[..count]) {
            return end;
        }
        let Ok(()) = flush(&mut session.waiting, output) else {
            return End::WriteFault;
        };
    }
    End::ReadFault
}
