//! The output of a scenario: the two marks, the result of the call, and lines of values. Output that can't be written is skipped, also a
//! mark; the reader of the output notices that it is missing. So no function here returns an error. A line of several values is written
//! in parts of one value each.
ghost use Rattle.std.specs.Iterator.{IsFinite};

use crate::fault::Fault;
use std::fmt::{Debug, Display};
use std::io::Write;

/// The mark before the call. Each mark is one system call.
pub fn begin(rt: &HostRuntime) {
    bytes(rt, b"-- begin\n");
}

/// The mark after the call.
pub fn end(rt: &HostRuntime) {
    bytes(rt, b"-- end\n");
}

/// Writes bytes unchanged.
pub fn bytes(rt: &HostRuntime, bytes: &[u8]) {
    let _ = rt.stdout().write_all(bytes);
}

/// The mark after the call, and the value that the call made; if it failed, its error.
pub fn ended<T, E: Debug + Drop>(rt: &HostRuntime, outcome: Result<T, E>) -> Option<T> {
    end(rt);
    match outcome {
        Ok(made) => Some(made),
        Err(error) => {
            refused(rt, &error);
            None
        }
    }
}

/// The mark after a call that makes no value; this word is shown if the call succeeds.
pub fn ended_with<T: Drop, E: Debug + Drop>(
    rt: &HostRuntime,
    outcome: Result<T, E>,
    word: &'static str,
) {
    if ended(rt, outcome).is_some() {
        answer(rt, &word);
    }
}

/// The mark after a call that returns a list, and each item if the call succeeds.
pub fn ended_list<T: Debug + Drop, E: Debug + Drop>(rt: &HostRuntime, outcome: Result<Vec<T>, E>) {
    if let Some(items) = ended(rt, outcome) {
        lines(rt, "answer ", items.iter());
    }
}

/// The value to store, which a failed call returns.
pub fn given(rt: &HostRuntime, value: u32) {
    part(rt, &"given ");
    line(rt, &value);
}

/// Shows that the call failed, and the value that it returned.
pub fn handed_back<E: Debug>(rt: &HostRuntime, error: &E, value: u32) {
    let _ = print!(rt; "answer {error:?} ");
    line(rt, &value);
}

/// Shows that the call failed.
pub fn refused<E: Debug>(rt: &HostRuntime, error: &E) {
    part(rt, &"answer ");
    line(rt, error);
}

/// A line of the call's result.
pub fn answer<T: Display>(rt: &HostRuntime, line: &T) {
    let _ = println!(rt; "answer {line}");
}

/// A part of a line, followed by another part or the line's end.
pub fn part<T: Display>(rt: &HostRuntime, value: &T) {
    let _ = print!(rt; "{value}");
}

/// A line, or the end of a line.
pub fn line<T: Debug>(rt: &HostRuntime, value: &T) {
    let _ = println!(rt; "{value:?}");
}

/// Each item on a line of its own, after a word.
pub fn lines<T: Debug + Drop, I: Iterator<Item = T>>(rt: &HostRuntime, word: &'static str, items: I)
    requires { (it : I) → I.can_next it × IsFinite (I.remaining it) }
{
    for item in items {
        part(rt, &word);
        line(rt, &item);
    }
}

/// Two numbers, or two pairs of numbers. The word follows the first; after the second it is said that it counts nodes.
pub fn counts<T: Debug>(rt: &HostRuntime, first: &T, word: &'static str, nodes: &T) {
    let _ = print!(rt; "{first:?}");
    part(rt, &word);
    let _ = println!(rt; "{nodes:?} nodes");
}

/// The first item of a copy of an iterator, and an empty iterator.
pub fn copy_first<T: Debug + Drop, I: Iterator<Item = T> + Clone + Default>(
    rt: &HostRuntime,
    items: &I,
) -> Result<(), Fault>
    requires { (it : I) → I.can_next it }
{
    let Ok(mut copy) = items.clone() else {
        return Err(Fault::Values);
    };
    let mut none = I::default();
    line(rt, &(copy.next(), none.next()));
    Ok(())
}
