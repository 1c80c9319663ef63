//! Leaders, followers, least tables and installers, and the lines of a feed. Their input is standard input.
use crate::fault::{Fault, made};
use crate::show::{answer, begin, bytes, end, ended, ended_with, line, lines, part};
use ipnet::{IpAddr, Ipv4Addr};
use route_feed::{Counted, Follower, follow, lead, lead_line, shorten};
use route_installer::install;
use route_lines::{Command, FibUpdate, Line, LineCutter, Reply};
use route_table::RouteTable;
use std::io::Stdin;
use std::str::from_utf8;

/// The most bytes of output that are kept.
const OUTPUT: usize = 1 << 16;

/// The calls of feeds.
#[derive(Clone, Copy)]
pub enum FeedCall {
    Lead,
    Follow,
    Shorten,
    Install,
    New,
    Change,
    Commit,
    Least,
    Hop,
    Cut,
    Print,
}

pub fn run(rt: &HostRuntime, call: FeedCall) -> Result<(), Fault> {
    match call {
        FeedCall::New => make(rt),
        FeedCall::Change | FeedCall::Commit | FeedCall::Least | FeedCall::Hop => {
            run_follower(rt, call)
        }
        FeedCall::Cut => {
            cut(rt);
            Ok(())
        }
        FeedCall::Print => {
            print(rt);
            Ok(())
        }
        _ => run_over(rt, call),
    }
}

/// A run over standard input. Its output goes to memory that was allocated before.
fn run_over(rt: &HostRuntime, call: FeedCall) -> Result<(), Fault> {
    let mut reader = Counted::new(rt.stdin());
    let mut writer = Counted::new(made(Vec::with_capacity(rt.alloc(), OUTPUT))?);
    show_reads(rt, &reader);
    begin(rt);
    let outcome = match call {
        FeedCall::Lead => lead(rt.alloc(), &mut reader, &mut writer),
        FeedCall::Follow => follow(rt.alloc(), &mut reader, &mut writer),
        FeedCall::Install => install(rt.alloc(), &mut reader, &mut writer),
        _ => shorten(rt.alloc(), &mut reader, &mut writer),
    };
    ended_with(rt, outcome, "ended");
    show_reads(rt, &reader);
    bytes(rt, writer.into_inner().as_slice());
    Ok(())
}

/// A line for a table, and the reply. The output goes to memory that was allocated before.
pub fn lead_one(rt: &HostRuntime, table: &mut RouteTable, text: &str) -> Result<(), Fault> {
    let mut writer = Counted::new(made(Vec::with_capacity(rt.alloc(), OUTPUT))?);
    begin(rt);
    let outcome = lead_line(table, text.as_bytes(), &mut writer);
    let reply = writer.into_inner();
    if ended(rt, outcome).is_some() {
        answer_lines(rt, reply.as_slice());
    }
    Ok(())
}

fn answer_lines(rt: &HostRuntime, reply: &[u8]) {
    let text = from_utf8(reply).unwrap_or("no text");
    for line in text.split_terminator('\n') {
        answer(rt, &line);
    }
}

fn show_reads(rt: &HostRuntime, reader: &Counted<Stdin>) {
    part(rt, &reader.reads());
    part(rt, &" reads\n");
}

/// A follower without changes, and its flat list.
fn make(rt: &HostRuntime) -> Result<(), Fault> {
    begin(rt);
    let mut follower = made(Follower::new(rt.alloc()))?;
    show_then(rt, &mut follower);
    end(rt);
    Ok(())
}

/// Makes the follower for the calls that need one.
fn run_follower(rt: &HostRuntime, call: FeedCall) -> Result<(), Fault> {
    let mut follower = made(Follower::new(rt.alloc()))?;
    call_follower(rt, &mut follower, call)
}

fn call_follower(rt: &HostRuntime, follower: &mut Follower, call: FeedCall) -> Result<(), Fault> {
    match call {
        FeedCall::Change => follow_last(rt, follower, &[], b"set 10.1.0.0/16 2"),
        FeedCall::Commit => follow_last(rt, follower, &COMMITTED, b"ok"),
        FeedCall::Least => least(rt, follower),
        _ => hops(rt, follower),
    }
}

/// Changes that are committed, except for the last two, which are pending.
const COMMITTED: [&str; 4] = [
    "set 10.0.0.0/8 1",
    "ok",
    "set 10.1.2.3/32 2",
    "set 2001:db8::/32 2",
];

/// Three committed changes, the last of them inside the first.
const TOLD: [&str; 4] = [
    "set 10.0.0.0/8 1",
    "set 2001:db8::/32 2",
    "set 10.1.0.0/16 3",
    "ok",
];

/// Feeds these lines to the follower.
fn tell(follower: &mut Follower, lines: &[&'static str]) -> Result<(), Fault> {
    for line in lines {
        made(follower.line(line.as_bytes()))?;
    }
    Ok(())
}

/// The last line: a change that the follower has to keep, or an `ok` that commits.
fn follow_last(
    rt: &HostRuntime,
    follower: &mut Follower,
    lines: &[&'static str],
    last: &[u8],
) -> Result<(), Fault> {
    tell(follower, lines)?;
    begin(rt);
    ended_with(rt, follower.line(last), "followed");
    show_then(rt, follower);
    Ok(())
}

/// A least table of a follower's hops, which are unchanged.
fn least(rt: &HostRuntime, follower: &mut Follower) -> Result<(), Fault> {
    tell(follower, &TOLD)?;
    show_flat(rt, follower);
    begin(rt);
    match ended(rt, follower.least()) {
        Some(Some(routes)) => lines(rt, "answer ", routes.iter()),
        Some(None) => answer(rt, &"failed before"),
        None => (),
    }
    show_flat(rt, follower);
    Ok(())
}

/// Lines that change nothing.
const UNCHANGED: [&str; 8] = [
    "route 10.0.0.0/8 1 100",
    "flat 10.0.0.0/8 1",
    "own 10.0.0.0/8",
    "count 2 1",
    "none",
    "bad",
    "refused",
    "ok",
];

/// Lines that change nothing, the hops of addresses with a reported hop, and that of one without.
fn hops(rt: &HostRuntime, follower: &mut Follower) -> Result<(), Fault> {
    tell(follower, &TOLD)?;
    begin(rt);
    for text in &UNCHANGED {
        line(rt, &follower.line(text.as_bytes()));
    }
    for first in [10, 11] {
        let addr = IpAddr::V4(Ipv4Addr::new(first, 1, 2, 3));
        line(rt, &follower.hop(addr));
    }
    show_flat(rt, follower);
    end(rt);
    Ok(())
}

/// The result of the next line, and the flat list.
fn show_then(rt: &HostRuntime, follower: &mut Follower) {
    part(rt, &"then ");
    line(rt, &follower.line(b"ok"));
    show_flat(rt, follower);
}

fn show_flat(rt: &HostRuntime, follower: &Follower) {
    match follower.flat() {
        Some(blocks) => lines(rt, "flat ", blocks),
        None => part(rt, &"no flat list\n"),
    }
}

/// Bytes split into lines, which are read.
fn cut(rt: &HostRuntime) {
    let mut cutter = LineCutter::new();
    begin(rt);
    for byte in b"add 10.0.0.0/8 1\nset 10.0.0.0/8 1\n\nflat\nadd 10.0.0.0/8 1 1000000\nok" {
        if let Some(Line::Text(text)) = cutter.feed(*byte) {
            read(rt, text.as_slice());
        }
    }
    line(rt, &cutter.rest());
    end(rt);
}

/// The length of the line, whether it is a command, and whether it is a reply line.
fn read(rt: &HostRuntime, text: &[u8]) {
    let (is_command, is_reply) = (Command::read(text).is_ok(), Reply::read(text).is_ok());
    line(rt, &(text.len(), is_command, is_reply));
}

/// Lines of each kind, as they are printed.
fn print(rt: &HostRuntime) {
    begin(rt);
    print_command(rt, b"from 2001:db8::/32 1000");
    print_command(rt, b"add 10.0.0.0/8 1 7");
    print_reply(rt, b"route 10.0.0.0/8 drop 100");
    print_reply(rt, b"count 1 18446744073709551615");
    print_update(rt, b"install ::ffff:10.0.0.0/104 1");
    print_update(rt, b"remove 10.0.0.0/8");
    end(rt);
}

fn print_command(rt: &HostRuntime, text: &[u8]) {
    if let Ok(command) = Command::read(text) {
        bytes(rt, command.print().as_slice());
    }
}

fn print_reply(rt: &HostRuntime, text: &[u8]) {
    if let Ok(reply) = Reply::read(text) {
        bytes(rt, reply.print().as_slice());
    }
}

fn print_update(rt: &HostRuntime, text: &[u8]) {
    if let Ok(update) = FibUpdate::read(text) {
        bytes(rt, update.print().as_slice());
    }
}
