//! A script, line by line.
use crate::calls::Call;
use crate::lines::{KeyType, Line, Lines};
use script_words::{Fault, ScriptKey, State};
use std::alloc::Global;
use std::io;
use std::io::{Read, Write};

/// How many bytes a result may have before more is allocated for it.
const ROOM: usize = 65536;

/// The exit status for an invalid line.
const BAD: u8 = 2;

/// The end of the lines of one key type.
#[derive(Clone, Copy)]
enum Next {
    Keys(KeyType),
    End(u8),
}

/// A script that is being read.
#[derive(Drop)]
struct Script<R: Read + Drop> {
    lines: Lines<R>,
    reply: String,
    /// The line whose call is made between the lines `begin` and `end` on standard error.
    marked: Option<u64>,
}

/// Reads a script from standard input to its end or to an invalid line, prints the results, and returns the exit status.
pub fn run(rt: &HostRuntime, marked: Option<u64>) -> io::Result<u8> {
    let alloc = rt.alloc();
    let mut script = Script {
        lines: Lines::new(alloc, rt.stdin())?,
        reply: String::with_capacity(alloc, ROOM)?,
        marked,
    };
    let mut next = script.first(rt)?;
    for _ in 0..u64::MAX {
        next = match next {
            Next::Keys(key_type) => script.answer_at(rt, key_type)?,
            Next::End(status) => return Ok(status),
        };
    }
    Ok(0)
}

impl<R: Read + Drop> Script<R> {
    /// The first key type.
    fn first(&mut self, rt: &HostRuntime) -> io::Result<Next> {
        for _ in 0..u64::MAX {
            match self.lines.next_line()? {
                Line::End => return Ok(Next::End(0)),
                Line::Nothing => {}
                Line::Keys(key_type) => return Ok(Next::Keys(key_type)),
                Line::Text(_) | Line::Bytes => return self.bad(rt),
            }
        }
        Ok(Next::End(0))
    }

    /// Answers the lines of a key type.
    fn answer_at(&mut self, rt: &HostRuntime, key_type: KeyType) -> io::Result<Next> {
        match key_type {
            KeyType::U8 => self.answer_all::<u8>(rt),
            KeyType::U16 => self.answer_all::<u16>(rt),
            KeyType::U32 => self.answer_all::<u32>(rt),
            KeyType::U64 => self.answer_all::<u64>(rt),
            KeyType::U128 => self.answer_all::<u128>(rt),
            KeyType::I8 => self.answer_all::<i8>(rt),
            KeyType::I16 => self.answer_all::<i16>(rt),
            KeyType::I32 => self.answer_all::<i32>(rt),
            KeyType::I64 => self.answer_all::<i64>(rt),
            KeyType::I128 => self.answer_all::<i128>(rt),
            KeyType::Char => self.answer_all::<char>(rt),
        }
    }

    /// Answers the lines up to the next key type, the end or an invalid line. Maps and sets begin empty.
    fn answer_all<T: ScriptKey>(&mut self, rt: &HostRuntime) -> io::Result<Next> {
        let mut state = State::<T>::new(rt.alloc());
        self.answer_lines(rt, &mut state)
    }

    /// Answers the lines up to the next key type, the end or an invalid line.
    fn answer_lines<T: ScriptKey>(
        &mut self,
        rt: &HostRuntime,
        state: &mut State<T>,
    ) -> io::Result<Next> {
        for _ in 0..u64::MAX {
            let call = match self.lines.next_line()? {
                Line::End => return Ok(Next::End(0)),
                Line::Nothing => continue,
                Line::Keys(key_type) => return Ok(Next::Keys(key_type)),
                Line::Text(text) => Call::read(state, text),
                Line::Bytes => Err(Fault::Bad),
            };
            let made = self.answer(rt, call, state)?;
            if let Some(end) = self.print(rt, made)? {
                return Ok(end);
            }
        }
        Ok(Next::End(0))
    }

    /// Prints the result that is kept, or that an allocation failed. Returns the script's end if the line was invalid.
    fn print(&self, rt: &HostRuntime, made: Result<(), Fault>) -> io::Result<Option<Next>> {
        match made {
            Ok(()) => {
                let reply = self.reply.as_str();
                println!(rt; "{reply}")?;
            }
            Err(Fault::Refused) => println!(rt; "refused")?,
            Err(Fault::RefusedAt(at)) => println!(rt; "refused at {at}")?,
            Err(Fault::Bad) => return Ok(Some(self.bad(rt)?)),
        }
        Ok(None)
    }

    /// Makes a call, and keeps the text of its result.
    fn answer<T: ScriptKey>(
        &mut self,
        rt: &HostRuntime,
        call: Result<Call<T>, Fault>,
        state: &mut State<T>,
    ) -> io::Result<Result<(), Fault>> {
        self.reply.clear();
        let call = match call {
            Ok(call) => call,
            Err(fault) => return Ok(Err(fault)),
        };
        let is_marked = self.marked == Some(self.lines.number());
        if is_marked {
            eprintln!(rt; "begin")?;
        }
        let made = call.make(state, &mut self.reply);
        if is_marked {
            eprintln!(rt; "end")?;
        }
        Ok(made)
    }

    /// Ends the script at an invalid line.
    fn bad(&self, rt: &HostRuntime) -> io::Result<Next> {
        let number = self.lines.number();
        println!(rt; "bad line {number}")?;
        Ok(Next::End(BAD))
    }
}
