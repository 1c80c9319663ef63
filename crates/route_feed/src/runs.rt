//! The runs: each reads an input to its end, and writes the output of its lines.
ghost use Rattle.std.specs.Prelude.{◌≤◌, ◌+◌, ◌^◌, List, Bool, OnOk, IfSome};
ghost use Rattle.std.specs.Io.KnownBytes.{Appends};
ghost use Rattle.route_program.specs.Counted.{CanRead, CanRun};
ghost use Rattle.route_feed.specs.Follows.{AreReplies, FollowEnds, followed};
ghost use Rattle.route_feed.specs.InnerReaching.{Reaches};
ghost use Rattle.route_feed.specs.Leads.{LeadEnds};
ghost use Rattle.route_feed.specs.Output.{output};
ghost use Rattle.route_feed.specs.Shortens.{AppendsLeast, ShortenEnds};
ghost use Rattle.route_lines.specs.Bytes.{lines};

use crate::answer::answer_rest;
use crate::follower::Follower;
use crate::leader::Leader;
use crate::writing::{reply, write_routes};
use route_program::{AtEnd, Counted, INPUT_BUFFER, RunError, run};
use route_table::RouteTable;
use std::alloc::Global;
use std::io::{Read, Write};

/// Reads command lines until the end of the input, and writes the reply of each.
///
/// Commands change or query a route table. The reply to any other line is `bad`, also to a line of more than 80 bytes, and to bytes after
/// the last line end. The reply to an `add` or a `del` that is carried out has the fewest blocks that cover just the addresses whose hop
/// changed. Each block has its new hop, and `ok` is last. The reply to a `del` of a route that isn't stored is `none`. The reply to an
/// `add` of a ninth hop of a network is always `refused`, and so is that to a command that runs out of memory. Then nothing changes.
///
/// The output depends only on the bytes read and on which allocations failed, not on how the bytes were split into reads. If the reader's
/// or the writer's type doesn't specify its bytes, as that of a file, the run does the same, but nothing is proved about these bytes. The
/// writer is flushed after each reply, before the next reply begins. The counts of reader and writer must be below 2^63.
///
/// # Errors
/// - `Memory` before anything is read or written.
/// - `Read` if `read` fails, or if 2^62 calls of `read` don't reach the end. The replies to all complete lines were written.
/// - `Write` if `write` or `flush` fails, or if `write` writes nothing. A beginning of the output for the bytes read, or all of it, was
///   written, and each reply before the last one in it was flushed.
///
/// It never fails with `Line`.
///
/// # Examples
/// The bytes `input`, in a function that returns the output:
///
/// ```rust
/// let mut reader = Counted::new(input);
/// let mut writer = Counted::new(Vec::new(alloc));
/// lead(alloc, &mut reader, &mut writer)?;
/// Ok(writer.into_inner())
/// ```
///
/// An input, and its output:
///
/// ```rust
/// (
///     "add 10.0.0.0/8 1\nadd 10.0.0.0/9 2\ndel 10.0.0.0/8 1\n",
///     "set 10.0.0.0/8 1\nok\nset 10.0.0.0/9 2\nok\nunset 10.128.0.0/9\nok\n",
/// ),
/// ```
pub fn lead<R: Read, W: Write>(
    alloc: Global,
    reader: &mut Counted<R>,
    writer: &mut Counted<W>,
) -> Result<(), RunError>
    requires { CanRun reader.old writer.old }
    ensures ends { LeadEnds R.remaining W.contents reader.old reader.new writer.old writer.new result }
    ensures reads { reader.new.reads ≤ reader.old.reads + 2 ^ 62 }
    ensures known { OnOk result (IfSome (R.remaining reader.old.device) (λ bytes.
        (refusals : List Bool) × Appends (W.contents writer.old.device) (W.contents writer.new.device) (output bytes refusals))) }
{
    lead_then(alloc, reader, writer, AtEnd::Free)
}

/// Runs as `lead` does. At the end it frees the memory of the table, or leaks it; after an error it may free it in any case. Freeing it
/// list by list, as `lead` does, takes up to an eighth of the time of a run.
///
/// # Errors
/// As in `lead`.
pub fn lead_then<R: Read, W: Write>(
    alloc: Global,
    reader: &mut Counted<R>,
    writer: &mut Counted<W>,
    at_end: AtEnd,
) -> Result<(), RunError>
    requires { CanRun reader.old writer.old }
    ensures ends { LeadEnds R.remaining W.contents reader.old reader.new writer.old writer.new result }
    ensures reads { reader.new.reads ≤ reader.old.reads + 2 ^ 62 }
    ensures known { OnOk result (IfSome (R.remaining reader.old.device) (λ bytes.
        (refusals : List Bool) × Appends (W.contents writer.old.device) (W.contents writer.new.device) (output bytes refusals))) }
{
    let mut buf = vec![in alloc; 0; INPUT_BUFFER]?;
    let table = RouteTable::new(alloc)?;
    let mut leader = Leader { table };
    let rest = run(&mut leader, buf.as_mut_slice(), reader, writer)?;
    let result = answer_rest(rest, writer);
    at_end.discard(leader);
    result
}

/// Follows the reply lines of the reader, until its end.
fn follow_all<R: Read, W: Write>(
    alloc: Global,
    reader: &mut Counted<R>,
    writer: &mut Counted<W>,
) -> Result<Follower, RunError>
    requires { CanRead reader.old }
    ensures reaches { Reaches R.remaining W.contents reader.old reader.new writer.old writer.new result }
    ensures reads { reader.new.reads ≤ reader.old.reads + 2 ^ 62 }
{
    let mut buf = vec![in alloc; 0; INPUT_BUFFER]?;
    let mut follower = Follower::new(alloc)?;
    run(&mut follower, buf.as_mut_slice(), reader, writer)?;
    Ok(follower)
}

/// Reads reply lines until the end of the input. Then it writes the flat list of the hops that they report, and `ok`.
///
/// Bytes after the last line end are ignored. The hop of an address is that of the last committed change whose block contains it. A `set`
/// or `unset` line is committed if the next closing line is `ok`. The writer is flushed once, after the last line. If the reader's or the
/// writer's type doesn't specify its bytes, as that of a file, the run does the same, but nothing is proved about these bytes. The counts
/// of reader and writer must be below 2^63.
///
/// # Errors
/// Nothing is written, unless the error is `Write`.
///
/// - `Line` if a line isn't a reply line.
/// - `Memory` before anything is read, or at a reply line with a change, or at one that commits changes.
/// - `Read` if `read` fails, or if 2^62 calls of `read` don't reach the end.
/// - `Write` if `write` or `flush` fails, or if `write` writes nothing. All input was read, and a beginning of the flat list, or all of it,
///   was written.
///
/// # Examples
/// The bytes `input`, in a function that returns the output:
///
/// ```rust
/// let mut reader = Counted::new(input);
/// let mut writer = Counted::new(Vec::new(alloc));
/// follow(alloc, &mut reader, &mut writer)?;
/// Ok(writer.into_inner())
/// ```
///
/// An input that ends inside a line, and its output:
///
/// ```rust
/// (
///     "set 10.0.0.0/8 1\nok\nset 10.0.0.0/9 2\no",
///     "flat 10.0.0.0/8 1\nok\n",
/// ),
/// ```
pub fn follow<R: Read, W: Write>(
    alloc: Global,
    reader: &mut Counted<R>,
    writer: &mut Counted<W>,
) -> Result<(), RunError>
    requires { CanRun reader.old writer.old }
    ensures ends { FollowEnds R.remaining W.contents reader.old reader.new writer.old writer.new result }
    ensures reads { reader.new.reads ≤ reader.old.reads + 2 ^ 62 }
    ensures known { OnOk result (IfSome (R.remaining reader.old.device) (λ bytes.
        AreReplies (lines bytes) × Appends (W.contents writer.old.device) (W.contents writer.new.device) (followed bytes))) }
{
    follow_then(alloc, reader, writer, AtEnd::Free)
}

/// Runs as `follow` does. At the end it frees the memory of the table, or leaks it; after an error it may free it in any case.
///
/// # Errors
/// As in `follow`.
pub fn follow_then<R: Read, W: Write>(
    alloc: Global,
    reader: &mut Counted<R>,
    writer: &mut Counted<W>,
    at_end: AtEnd,
) -> Result<(), RunError>
    requires { CanRun reader.old writer.old }
    ensures ends { FollowEnds R.remaining W.contents reader.old reader.new writer.old writer.new result }
    ensures reads { reader.new.reads ≤ reader.old.reads + 2 ^ 62 }
    ensures known { OnOk result (IfSome (R.remaining reader.old.device) (λ bytes.
        AreReplies (lines bytes) × Appends (W.contents writer.old.device) (W.contents writer.new.device) (followed bytes))) }
{
    let follower = follow_all(alloc, reader, writer)?;
    let result = reply(writer, follower.pieces());
    at_end.discard(follower);
    result
}

/// Reads reply lines until the end of the input. Then it writes a line `add NET HOP` for each route of a smallest table with the hops
/// that they report. The routes are ascending, may be nested, and `drop` counts as one.
///
/// A leader that is given these lines has the same hops. If there are several smallest tables, any of them may be written. If no address
/// has a hop, nothing is written. Bytes after the last line end are ignored. The writer is flushed once, after the last line. If the
/// reader's or the writer's type doesn't specify its bytes, as that of a file, the run does the same, but nothing is proved about these
/// bytes. The counts of reader and writer must be below 2^63.
///
/// # Errors
/// Nothing is written, unless the error is `Write`.
///
/// - `Line` if a line isn't a reply line.
/// - `Memory` before anything is read, at a reply line with a change, at one that commits changes, or after all is read.
/// - `Read` if `read` fails, or if 2^62 calls of `read` don't reach the end.
/// - `Write` if `write` or `flush` fails, or if `write` writes nothing. All input was read, and a beginning of the lines, or all of them,
///   was written.
///
/// # Examples
/// The bytes `input`, in a function that returns the output:
///
/// ```rust
/// let mut reader = Counted::new(input);
/// let mut writer = Counted::new(Vec::new(alloc));
/// shorten(alloc, &mut reader, &mut writer)?;
/// Ok(writer.into_inner())
/// ```
///
/// An input, and its output:
///
/// ```rust
/// (
///     "set 10.0.0.0/8 1\nok\nset 10.0.0.0/9 2\nok\nset 10.64.0.0/10 1\nok\n",
///     "add 10.0.0.0/8 1\nadd 10.0.0.0/10 2\n",
/// ),
/// ```
pub fn shorten<R: Read, W: Write>(
    alloc: Global,
    reader: &mut Counted<R>,
    writer: &mut Counted<W>,
) -> Result<(), RunError>
    requires { CanRun reader.old writer.old }
    ensures ends { ShortenEnds R.remaining W.contents reader.old reader.new writer.old writer.new result }
    ensures reads { reader.new.reads ≤ reader.old.reads + 2 ^ 62 }
    ensures known { OnOk result (IfSome (R.remaining reader.old.device) (λ bytes.
        AreReplies (lines bytes) × AppendsLeast bytes (W.contents writer.old.device) (W.contents writer.new.device))) }
{
    let follower = follow_all(alloc, reader, writer)?;
    let routes = follower.into_least()?;
    write_routes(writer, routes)
}
