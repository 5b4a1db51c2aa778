//! The answer to a request, from the range map.
ghost use Rattle.std.specs.Prelude.{◌≡◌, ◌≢◌, ◌++◌, [], ℤ, IfSome, OnErr, OnOk, option_map};
ghost use Rattle.std.specs.Prelude.{string_bytes};
ghost use Rattle.std.specs.Option.{option_copied};
ghost use Rattle.range_map_cli.specs.Commands.{command_of_request, Blank};
ghost use Rattle.range_map_cli.specs.Edits.{answer_text, command_done};
ghost use Rattle.range_map_cli.specs.Pieces.{IsGreatestPiece};
ghost use Rattle.range_map_cli.specs.Replies.{content_after_command, greatest_key, least_key};
ghost use Rattle.range_map_cli.specs.Replies.{word_or_dash as shown_word, Replies};
ghost use Rattle.range_map_cli.specs.States.{content_of, HasWords};

use crate::request::Request;
use crate::step::{Answer, Step};
use crate::steps::take_step;
use range_map_blaze::RangeMapBlaze;
use std::alloc::{AllocError, Global};
use std::fmt::Write;

/// A word, or a dash if there is none.
fn word_or_dash(word: Option<&String>) -> &str
    ensures { result.now ≡ shown_word (option_map string_bytes (option_copied word.entry)) }
{
    match word {
        Some(word) => word.as_str(),
        None => "-",
    }
}

/// The first and the last key of the entry that contains a key, or of the gap around it, with its word, or a dash.
fn piece_at(map: &RangeMapBlaze<i64, String>, key: i64) -> (i64, i64, &str)
    ensures piece { IsGreatestPiece least_key greatest_key (content_of map.now.entries) key
        result.0 result.1 }
    ensures word { result.2.now ≡ shown_word (content_of map.now.entries key) }
{
    map.in_hand();
    let (range, word) = map.range_or_gap_at(key);
    let (start, end) = range.into_inner();
    (start, end, word_or_dash(word))
}

/// Appends a line with a step's answer to a text, and nothing if the answer is not printed.
fn put_answer(reply: &mut String, answer: Answer<i64, String>) -> Result<(), AllocError>
    ensures { OnOk result (string_bytes reply.new ≡ string_bytes reply.old ++ answer_text answer) }
{
    match answer {
        Answer::Wrote(changed) => writeln!(reply, "{changed}"),
        Answer::Old(word) => {
            let old = word_or_dash(word.as_ref());
            writeln!(reply, "{old}")
        }
        Answer::Popped(_) | Answer::Done => Ok(()),
    }
}

/// Does a step, and writes what is printed for its command to an empty reply.
fn answer_step(
    map: &mut RangeMapBlaze<i64, String>,
    reply: &mut String,
    step: Step<i64, String>,
) -> Result<(), AllocError>
    requires empty { string_bytes reply.old ≡ [] }
    ensures reply { OnOk result (IfSome (command_done step)
        (λ command. Replies (content_of map.old.entries) command (string_bytes reply.new))) }
    ensures content { OnOk result (IfSome (command_done step)
        (λ command. (key : ℤ) → content_of map.new.entries key
        ≡ content_after_command command (content_of map.old.entries) key)) }
{
    let answer = take_step(map, step)?;
    put_answer(reply, answer)
}

/// Does a request, and replaces the reply by what is printed for it.
pub fn answer(
    map: &mut RangeMapBlaze<i64, String>,
    reply: &mut String,
    alloc: Global,
    request: Request<'_>,
) -> Result<(), AllocError>
    ensures reply { OnOk result (HasWords (content_of map.old.entries)
        → Replies (content_of map.old.entries) (command_of_request request.entry) (string_bytes reply.new)) }
    ensures content { OnOk result ((key : ℤ) → content_of map.new.entries key
        ≡ content_after_command (command_of_request request.entry) (content_of map.old.entries) key) }
    ensures refused { OnErr result (command_of_request request.entry ≢ Blank) }
{
    reply.clear();
    match request {
        Request::Blank => Ok(()),
        Request::Paint(lo, hi, word) => {
            let word = String::from_str(alloc, word)?;
            answer_step(map, reply, Step::Paint(lo, hi, word))
        }
        Request::Fill(lo, hi, word) => {
            let word = String::from_str(alloc, word)?;
            answer_step(map, reply, Step::Fill(lo, hi, word))
        }
        Request::Insert(key, word) => {
            let word = String::from_str(alloc, word)?;
            answer_step(map, reply, Step::Insert(key, word))
        }
        Request::Remove(key) => answer_step(map, reply, Step::Remove(key)),
        Request::Get(key) => {
            let word = word_or_dash(map.get(key));
            writeln!(reply, "{word}")
        }
        Request::At(key) => {
            let (start, end, word) = piece_at(map, key);
            writeln!(reply, "{start}..={end} {word}")
        }
        Request::Len => {
            let len = map.len();
            writeln!(reply, "{len}")
        }
        Request::Entries => {
            map.in_hand();
            let map = &*map;
            writeln!(reply, "{map}")
        }
    }
}
