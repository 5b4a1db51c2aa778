//! Texts that wait for a writer.
ghost use Rattle.std.specs.Prelude.{◌≡◌, ◌++◌, [], OnOk, OnErr};
ghost use Rattle.std.specs.Io.KnownBytes.{Appends};
ghost use Rattle.range_map_cli.specs.Sessions.{Forwards, Stops};

use std::io::Write;

/// A write failed, or wrote no byte.
#[derive(Debug, Drop)]
pub struct WriteFailed;

/// Writes all of the text. If it fails, a proper prefix was written, perhaps an empty one.
pub fn write_text<W: Write>(output: &mut W, text: &[u8]) -> Result<(), WriteFailed>
    ensures ok { OnOk result (Appends (W.contents output.old) (W.contents output.new) text.now) }
    ensures err { OnErr result (Stops (W.contents output.old) (W.contents output.new) text.now) }
{
    let mut rest = text;
    while !rest.is_empty() {
        let Ok(count) = output.write(rest) else {
            return Err(WriteFailed);
        };
        if count == 0 {
            return Err(WriteFailed);
        }
        let (_, after) = rest.split_at(count);
        rest = after;
    }
    Ok(())
}

/// Writes all bytes that wait. If it fails, a first part of them was written, perhaps nothing, but not all.
pub fn flush<W: Write>(waiting: &mut Vec<u8>, output: &mut W) -> Result<(), WriteFailed>
    ensures ok { OnOk result
        (Appends (W.contents output.old) (W.contents output.new) waiting.old.items) }
    ensures err { OnErr result
        (Stops (W.contents output.old) (W.contents output.new) waiting.old.items) }
    ensures empty { OnOk result (waiting.new.items ≡ []) }
{
    write_text(output, waiting.as_slice())?;
    waiting.clear();
    Ok(())
}

/// Appends a text to the bytes that wait. If there is no space for it, writes those bytes first, and a text with no space at all
/// right after them. If it fails, a first part of the bytes and the text was written, perhaps nothing, but not all.
pub fn append_output<W: Write>(
    waiting: &mut Vec<u8>,
    output: &mut W,
    text: &[u8],
) -> Result<(), WriteFailed>
    ensures ok { OnOk result (Forwards (W.contents output.old) (W.contents output.new)
        (waiting.old.items ++ text.now) waiting.new.items) }
    ensures err { OnErr result (Stops (W.contents output.old) (W.contents output.new)
        (waiting.old.items ++ text.now)) }
{
    if waiting.capacity().saturating_sub(waiting.len()) < text.len() {
        flush(waiting, output)?;
        if waiting.capacity() < text.len() {
            return write_text(output, text);
        }
    }
    match waiting.extend_from_slice(text) {
        Ok(()) => Ok(()),
        Err(_) => unreachable!(),
    }
}
