//! A text cut at a byte.
ghost use Rattle.range_map_cli.specs.Lines.{IsLineSplit};

/// The parts of a text before and after the first such byte, or `None` if the text has no such byte.
pub fn split_once(text: &[u8], byte: u8) -> Option<(&[u8], &[u8])>
    ensures { IsLineSplit byte text.now result }
{
    let at = text.iter().position(|other| *other == byte)?;
    let (before, rest) = text.split_at(at);
    Some((before, &rest[1..]))
}
