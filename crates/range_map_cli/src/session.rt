//! The steps of a session.
ghost use Rattle.std.specs.Prelude.{◌≡◌, ◌≢◌, ◌⊎◌, ◌+◌, ◌-◌, ◌^◌, ◌++◌, ◌∷◌, [], min, ℕ, ℤ, List};
ghost use Rattle.std.specs.Prelude.{Option, Some, None, OnOk, IfErr, IsErrOf};
ghost use Rattle.std.specs.Prelude.{string_bytes};
ghost use Rattle.std.specs.Io.KnownBytes.{Appends};
ghost use Rattle.range_map_cli.specs.Commands.{Blank, Command, command_of};
ghost use Rattle.range_map_cli.specs.Replies.{content_after_command, Replies};
ghost use Rattle.range_map_cli.specs.Output.{Prints, Closes};
ghost use Rattle.range_map_cli.specs.States.{content_of, HasWords};
ghost use Rattle.range_map_cli.specs.Lines.{Lacks};
ghost use Rattle.range_map_cli.specs.Sessions.{IsAt, ClosesBefore, with_line};

use crate::answer::answer;
use crate::line::Line;
use crate::output::{append_output, flush};
use crate::split::split_once;
use crate::{End, request};
use range_map_blaze::RangeMapBlaze;
use std::alloc::Global;
use std::io::Write;
use std::mem;

/// How many bytes of answers wait at most.
const ROOM: usize = 16384;

pub const NO_MEMORY: &[u8] = b"out of memory\n";

/// The state between two bytes of the text.
#[derive(Drop)]
pub struct Session {
    map: RangeMapBlaze<i64, String>,
    /// How many lines were answered. It saturates at 2^64 - 1.
    number: u64,
    /// The first bytes of a line whose end was not read yet.
    line: Line,
    /// What is printed for the last line.
    reply: String,
    /// Answers that are not written yet.
    pub waiting: Vec<u8>,
}

/// Why a line has no answer.
#[derive(Clone, Copy)]
enum Fault {
    BadLine,
    NoMemory,
}

impl Session {
    /// The session before the first byte. If there is no memory for answers that wait, each is written at once.
    pub fn new(alloc: Global) -> Self
        ensures map { result.map.entries ≡ [] }
        ensures number { result.number ≡ 0 }
        ensures line { result.line ≡ [] }
        ensures waiting { result.waiting.items ≡ [] }
    {
        Session {
            map: RangeMapBlaze::new(alloc),
            number: 0,
            line: Line::new(),
            reply: String::new(alloc),
            waiting: match Vec::with_capacity(alloc, ROOM) {
                Ok(waiting) => waiting,
                Err(_) => Vec::new(alloc),
            },
        }
    }

    /// Answers a line.
    fn answer(&mut self, alloc: Global, line: &[u8]) -> Result<(), Fault>
        ensures ok { OnOk result ((command : Command) × (command_of line.now ≡ Some command)
            × (HasWords (content_of self.old.map.entries)
            → Replies (content_of self.old.map.entries) command (string_bytes self.new.reply))
            × ((key : ℤ) → content_of self.new.map.entries key
            ≡ content_after_command command (content_of self.old.map.entries) key)) }
        ensures number { OnOk result (self.new.number ≡ min (self.old.number + 1) (2 ^ 64 - 1)) }
        ensures line { self.new.line ≡ self.old.line }
        ensures waiting { self.new.waiting.items ≡ self.old.waiting.items }
        ensures bad { IsErrOf result Fault.BadLine → (command_of line.now ≡ None)
            × (self.new.number ≡ self.old.number) }
        ensures no_memory { IsErrOf result Fault.NoMemory → (command_of line.now ≢ None)
            × (command_of line.now ≢ Some Blank) }
    {
        let Some(request) = request::read(line) else {
            return Err(Fault::BadLine);
        };
        match answer(&mut self.map, &mut self.reply, alloc, request) {
            Ok(()) => {
                self.number = self.number.saturating_add(1);
                Ok(())
            }
            Err(_) => Err(Fault::NoMemory),
        }
    }
}

/// Writes the answers that wait, and a last text.
pub fn close<W: Write>(waiting: &mut Vec<u8>, output: &mut W, text: &[u8], end: End) -> End
    ensures kind { (result ≡ end) ⊎ (result ≡ End.WriteFault) }
    ensures closes { (held : Option (List ℕ)) (all out : List ℕ) (n : ℕ)
        → Appends held (W.contents output.old) out
        → Prints all n end (out ++ (waiting.old.items ++ text.now))
        → Closes held (W.contents output.new) all n result }
{
    let Ok(()) = append_output(waiting, output, text) else {
        return End::WriteFault;
    };
    let Ok(()) = flush(waiting, output) else {
        return End::WriteFault;
    };
    end
}

/// Answers a line, and appends the answer to the others. The buffered start of a line is unchanged.
fn answer_line<W: Write>(
    session: &mut Session,
    alloc: Global,
    output: &mut W,
    line: &[u8],
) -> Result<(), End>
    ensures ok { OnOk result ((held : Option (List ℕ)) (text rest : List ℕ) (lines : ℕ)
        → IsAt held (W.contents output.old) text (with_line line.now session.old) (10 ∷ rest) lines
        → IsAt held (W.contents output.new) text (with_line [] session.new) rest lines) }
    ensures line { session.new.line ≡ session.old.line }
    ensures kind { IfErr result (λ end. end ≢ End.ReadFault) }
    ensures err { IfErr result (λ end. (held : Option (List ℕ)) (text rest : List ℕ) (lines : ℕ)
        → IsAt held (W.contents output.old) text (with_line line.now session.old) (10 ∷ rest) lines
        → ClosesBefore held (W.contents output.new) text rest lines end) }
{
    match session.answer(alloc, line) {
        Ok(()) => match append_output(&mut session.waiting, output, session.reply.as_bytes()) {
            Ok(()) => Ok(()),
            Err(_) => Err(End::WriteFault),
        },
        Err(Fault::NoMemory) => Err(close(&mut session.waiting, output, NO_MEMORY, End::NoMemory)),
        Err(Fault::BadLine) => {
            let number = session.number.saturating_add(1);
            match format!(in alloc; "error line {number}\n") {
                Ok(text) => Err(close(&mut session.waiting, output, text.as_bytes(), End::BadLine)),
                Err(_) => Err(close(&mut session.waiting, output, NO_MEMORY, End::NoMemory)),
            }
        }
    }
}

/// Ends a line, whose last bytes these are, after the kept ones.
fn end_line<W: Write>(
    session: &mut Session,
    alloc: Global,
    output: &mut W,
    bytes: &[u8],
) -> Result<(), End>
    ensures ok { OnOk result ((held : Option (List ℕ)) (text rest : List ℕ) (lines : ℕ)
        → Lacks 10 bytes.now
        → IsAt held (W.contents output.old) text session.old (bytes.now ++ 10 ∷ rest) lines
        → IsAt held (W.contents output.new) text session.new rest lines) }
    ensures line { OnOk result (session.new.line ≡ []) }
    ensures kind { IfErr result (λ end. end ≢ End.ReadFault) }
    ensures err { IfErr result (λ end. (held : Option (List ℕ)) (text rest : List ℕ) (lines : ℕ)
        → Lacks 10 bytes.now
        → IsAt held (W.contents output.old) text session.old (bytes.now ++ 10 ∷ rest) lines
        → ClosesBefore held (W.contents output.new) text rest lines end) }
{
    if !session.line.is_empty() {
        let mut line = mem::replace(&mut session.line, Line::new());
        line.keep(bytes);
        return answer_line(session, alloc, output, line.as_slice());
    }
    answer_line(session, alloc, output, bytes)
}

/// Takes the next bytes of the text: answers the lines that end in them, and keeps the first bytes of the next line.
pub fn feed<W: Write>(
    session: &mut Session,
    alloc: Global,
    output: &mut W,
    bytes: &[u8],
) -> Result<(), End>
    ensures ok { OnOk result ((held : Option (List ℕ)) (text rest : List ℕ) (lines : ℕ)
        → IsAt held (W.contents output.old) text session.old (bytes.now ++ rest) lines
        → IsAt held (W.contents output.new) text session.new rest lines) }
    ensures kind { IfErr result (λ end. end ≢ End.ReadFault) }
    ensures err { IfErr result (λ end. (held : Option (List ℕ)) (text rest : List ℕ) (lines : ℕ)
        → IsAt held (W.contents output.old) text session.old (bytes.now ++ rest) lines
        → ClosesBefore held (W.contents output.new) text rest lines end) }
{
    let mut rest = bytes;
    while let Some((line, after)) = split_once(rest, b'\n') {
        end_line(session, alloc, output, line)?;
        rest = after;
    }
    session.line.keep(rest);
    Ok(())
}

/// Answers the line after the last LF, if there is one, and writes the answers that wait.
pub fn finish<W: Write>(session: &mut Session, alloc: Global, output: &mut W) -> End
    ensures kind { result ≢ End.ReadFault }
    ensures closes { (held : Option (List ℕ)) (text : List ℕ) (lines : ℕ)
        → IsAt held (W.contents output.old) text session.old [] lines
        → ClosesBefore held (W.contents output.new) text [] (lines + 1) result }
{
    if session.line.is_empty() {
        return close(&mut session.waiting, output, b"", End::Done);
    }
    match end_line(session, alloc, output, b"") {
        Ok(()) => close(&mut session.waiting, output, b"", End::Done),
        Err(end) => end,
    }
}
