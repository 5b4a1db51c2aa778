//! Carriers: `carry` returns another carrier of the same value, and `into_value` returns the value. A word with another
//! owner is cloned.
use crate::calls::{begin, end, show_answer};
use blaze_streams::{Owned, ValueCarrier};
use std::alloc::{AllocError, Global};
use std::rc::Rc;

/// Returns a shared word.
fn shared(alloc: Global, text: &str) -> Result<Rc<String>, AllocError> {
    let word = String::from_str(alloc, text)?;
    let shared = Rc::new(alloc, word)?;
    Ok(shared)
}

/// Calls `carry` of a shared word, which allocates nothing.
fn carry_shared(rt: &HostRuntime, word: &Rc<String>) {
    begin(rt, "carry of an Rc");
    let made = word.carry();
    end(rt);
    show_answer(rt, made);
}

/// Calls `into_value` of a shared word.
fn shared_value(rt: &HostRuntime, word: Rc<String>) {
    begin(rt, "into_value of an Rc");
    let made = word.into_value();
    end(rt);
    show_answer(rt, made);
}

/// Calls `carry` of a pair with one owned word.
fn carry_pair(rt: &HostRuntime, pair: &(Rc<String>, Owned<String>)) {
    begin(rt, "carry of a pair");
    let made = pair.carry();
    end(rt);
    show_answer(rt, made);
}

/// Calls `into_value` of a pair of words with other owners.
fn pair_value(rt: &HostRuntime, pair: (Rc<String>, Rc<String>)) {
    begin(rt, "into_value of a pair");
    let made = pair.into_value();
    end(rt);
    show_answer(rt, made);
}

/// Calls `carry` of an option of an owned word.
fn carry_option(rt: &HostRuntime, word: &Option<Owned<String>>) {
    begin(rt, "carry of an Option");
    let made = word.carry();
    end(rt);
    show_answer(rt, made);
}

/// Calls `into_value` of an option of a word with another owner.
fn option_value(rt: &HostRuntime, word: Option<Rc<String>>) {
    begin(rt, "into_value of an Option");
    let made = word.into_value();
    end(rt);
    show_answer(rt, made);
}

/// Makes the calls on shared words.
fn owners(rt: &HostRuntime, one: &Rc<String>, two: &Rc<String>) -> Result<(), AllocError> {
    carry_shared(rt, one);
    shared_value(rt, one.carry()?);
    pair_value(rt, (one.carry()?, two.carry()?));
    option_value(rt, Some(one.carry()?));
    Ok(())
}

/// Makes all calls of this file.
pub fn all(rt: &HostRuntime) -> Result<(), AllocError> {
    let (one, two) = (shared(rt.alloc(), "a")?, shared(rt.alloc(), "b")?);
    owners(rt, &one, &two)?;
    let word = String::from_str(rt.alloc(), "c")?;
    carry_pair(rt, &(one, Owned(word)));
    let word = String::from_str(rt.alloc(), "d")?;
    carry_option(rt, &Some(Owned(word)));
    Ok(())
}
