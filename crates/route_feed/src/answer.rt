//! The reply to one line, which a run or a caller has read.
ghost use Rattle.std.specs.Prelude.{◌≡◌, ◌≢◌, [], ◌∷◌, IsErr, IsTrue, Some};
ghost use Rattle.ipnet.specs.IpNets.{block};
ghost use Rattle.route_program.specs.Counted.{CanCount};
ghost use Rattle.route_feed.specs.Lines.{command_in};
ghost use Rattle.route_feed.specs.InnerReplies.{GovernsAll, TellsGoverned, replies_to_rest, reply_to_rest};
ghost use Rattle.route_feed.specs.LeadsLine.{Answers};
ghost use Rattle.route_feed.specs.Replies.{printed};
ghost use Rattle.route_program.specs.Devices.{Closes};
ghost use Rattle.route_lines.specs.Lines.{as_line};
ghost use Rattle.route_lines.specs.Spelled.{command_of};

use crate::body::{ChangeLines, ChoiceLines, PageLines, change_line};
use crate::writing::reply;
use ipnet::IpNet;
use route_lines::{Closing, Command, Reply, Rest, line_text};
use route_program::{Counted, RunError, close};
use route_table::{Hop, RouteTable};
use std::io::Write;

/// Replies to one line, given without its line end, as `lead` does: writes the same reply lines, and flushes the writer.
///
/// The reply to a line of more than 80 bytes is `bad`. The writer must have counted fewer than 2^64 - 1 faults.
///
/// # Errors
/// Only `Write`: if `write` or `flush` fails, or if `write` writes nothing. Then a beginning of the reply, or all of it, was written, and
/// the table is the one after the line.
///
/// # Examples
/// The reply to `line`, in memory; `row_is` compares its last two arguments:
///
/// ```rust
/// let mut writer = Counted::new(Vec::new(alloc));
/// row_is(
///     rt,
///     line,
///     lead_line(table, line.as_bytes(), &mut writer),
///     Ok(()),
/// );
/// ```
///
/// Lines for a table that is empty at first, and the replies:
///
/// ```rust
/// ("add 10.0.0.0/8 1", "set 10.0.0.0/8 1\nok\n"),
/// ("get 10.1.0.0/16", "route 10.0.0.0/8 1 100\nok\n"),
/// ("add", "bad\n"),
/// ```
pub fn lead_line<W: Write>(
    table: &mut RouteTable,
    line: &[u8],
    writer: &mut Counted<W>,
) -> Result<(), RunError>
    requires { CanCount writer.old }
    ensures { Answers W.contents table.old table.new (command_of line.now) writer.old writer.new result }
{
    answer(table, line_text(line), writer)
}

/// Replies to the line of these bytes; `None` is a line that is too long.
///
/// # Errors
/// Only `Write`: if `write` or `flush` fails, or if `write` writes nothing. Then a beginning of the reply, or all of it, was written.
pub(crate) fn answer<W: Write>(
    table: &mut RouteTable,
    text: Option<&[u8]>,
    writer: &mut Counted<W>,
) -> Result<(), RunError>
    requires { CanCount writer.old }
    ensures { Answers W.contents table.old table.new (command_in (as_line text.entry)) writer.old writer.new result }
{
    let Some(text) = text else {
        return close(writer, Closing::Bad);
    };
    let Ok(command) = Command::read(text) else {
        return close(writer, Closing::Bad);
    };
    answer_command(table, command, writer)
}

/// Replies to the bytes after the last line end, if there are any.
///
/// # Errors
/// Only `Write`: if `write` or `flush` fails, or if `write` writes nothing. Then a beginning of the reply, or all of it, was written.
pub(crate) fn answer_rest<W: Write>(rest: Rest, writer: &mut Counted<W>) -> Result<(), RunError>
    requires { CanCount writer.old }
    ensures closes { Closes W.contents (replies_to_rest rest) writer.old writer.new result (reply_to_rest rest) }
    ensures held { IsErr result → rest ≡ Rest.Held }
{
    match rest {
        Rest::Empty => Ok(()),
        Rest::Held => close(writer, Closing::Bad),
    }
}

fn answer_command<W: Write>(
    table: &mut RouteTable,
    command: Command,
    writer: &mut Counted<W>,
) -> Result<(), RunError>
    requires { CanCount writer.old }
    ensures { Answers W.contents table.old table.new (Some command) writer.old writer.new result }
{
    match command {
        Command::Add { net, hop, pref } => answer_add(table, net, hop, pref, writer),
        Command::Del { net, hop } => answer_del(table, net, hop, writer),
        Command::Get { net } => answer_get(table, net, writer),
        Command::Cover { net } => answer_cover(table, net, writer),
        Command::List { net } => answer_list(table, net, writer),
        Command::All { net } => answer_all(table, net, writer),
        Command::PageFrom { net, limit } => answer_from(table, net, limit, writer),
        Command::PageAfter { net, limit } => answer_after(table, net, limit, writer),
        Command::Own { number } => answer_own(table, number, writer),
        Command::Count => answer_count(table, writer),
        Command::Flat => answer_flat(table, writer),
    }
}

fn answer_add<W: Write>(
    table: &mut RouteTable,
    net: IpNet,
    hop: Hop,
    pref: u16,
    writer: &mut Counted<W>,
) -> Result<(), RunError>
    requires { CanCount writer.old }
    ensures { Answers W.contents table.old table.new (Some (Command.Add net hop pref)) writer.old writer.new result }
{
    match table.add_is_leaf(net, hop, pref) {
        Ok((before, after, is_leaf)) => tell_change(table, &net, before, after, is_leaf, writer),
        Err(_) => close(writer, Closing::Refused),
    }
}

fn answer_del<W: Write>(
    table: &mut RouteTable,
    net: IpNet,
    hop: Hop,
    writer: &mut Counted<W>,
) -> Result<(), RunError>
    requires { CanCount writer.old }
    ensures { Answers W.contents table.old table.new (Some (Command.Del net hop)) writer.old writer.new result }
{
    match table.del(&net, hop) {
        Some((before, after)) => tell_change(table, &net, before, after, false, writer),
        None => close(writer, Closing::Missing),
    }
}

fn answer_get<W: Write>(
    table: &RouteTable,
    net: IpNet,
    writer: &mut Counted<W>,
) -> Result<(), RunError>
    requires { CanCount writer.old }
    ensures { Answers W.contents table.now table.now (Some (Command.Get net)) writer.old writer.new result }
{
    match table.get(&net) {
        None => close(writer, Closing::Missing),
        Some((net, hop, pref)) => {
            let pref = Some(pref);
            reply(writer, Some(Reply::Route { net, hop, pref }))
        }
    }
}

fn answer_all<W: Write>(
    table: &RouteTable,
    net: IpNet,
    writer: &mut Counted<W>,
) -> Result<(), RunError>
    requires { CanCount writer.old }
    ensures { Answers W.contents table.now table.now (Some (Command.All net)) writer.old writer.new result }
{
    let lines = ChoiceLines {
        net: net.trunc(),
        choices: table.all(&net),
    };
    reply(writer, lines)
}

// A walk takes up to fourteen kilobytes of the stack, which a function clears on entry. Each command that walks the table has a function
// of its own, so that the other commands don't pay for this.

#[inline(never)]
fn answer_cover<W: Write>(
    table: &RouteTable,
    net: IpNet,
    writer: &mut Counted<W>,
) -> Result<(), RunError>
    requires { CanCount writer.old }
    ensures { Answers W.contents table.now table.now (Some (Command.Cover net)) writer.old writer.new result }
{
    reply(writer, table.cover(&net))
}

#[inline(never)]
fn answer_list<W: Write>(
    table: &RouteTable,
    net: IpNet,
    writer: &mut Counted<W>,
) -> Result<(), RunError>
    requires { CanCount writer.old }
    ensures { Answers W.contents table.now table.now (Some (Command.List net)) writer.old writer.new result }
{
    reply(writer, table.list(&net))
}

#[inline(never)]
fn answer_from<W: Write>(
    table: &RouteTable,
    net: IpNet,
    limit: u16,
    writer: &mut Counted<W>,
) -> Result<(), RunError>
    requires { CanCount writer.old }
    ensures { Answers W.contents table.now table.now (Some (Command.PageFrom net limit)) writer.old writer.new result }
{
    let routes = table.from(&net);
    reply(writer, PageLines { routes, limit })
}

#[inline(never)]
fn answer_after<W: Write>(
    table: &RouteTable,
    net: IpNet,
    limit: u16,
    writer: &mut Counted<W>,
) -> Result<(), RunError>
    requires { CanCount writer.old }
    ensures { Answers W.contents table.now table.now (Some (Command.PageAfter net limit)) writer.old writer.new result }
{
    let routes = table.after(&net);
    reply(writer, PageLines { routes, limit })
}

#[inline(never)]
fn answer_flat<W: Write>(table: &RouteTable, writer: &mut Counted<W>) -> Result<(), RunError>
    requires { CanCount writer.old }
    ensures { Answers W.contents table.now table.now (Some Command.Flat) writer.old writer.new result }
{
    reply(writer, table.flat())
}

fn answer_own<W: Write>(
    table: &RouteTable,
    number: u32,
    writer: &mut Counted<W>,
) -> Result<(), RunError>
    requires { CanCount writer.old }
    ensures { Answers W.contents table.now table.now (Some (Command.Own number)) writer.old writer.new result }
{
    match table.own(number) {
        Ok(networks) => reply(writer, networks.as_slice()),
        Err(_) => close(writer, Closing::Refused),
    }
}

fn answer_count<W: Write>(table: &RouteTable, writer: &mut Counted<W>) -> Result<(), RunError>
    requires { CanCount writer.old }
    ensures { Answers W.contents table.now table.now (Some Command.Count) writer.old writer.new result }
{
    let (v4, v6) = table.count();
    let line = Reply::Count {
        v4: v4 as u64,
        v6: v6 as u64,
    };
    reply(writer, Some(line))
}

/// Replies to a change of the network with a line for each block whose hop changed: the blocks that the network governs, or none. If the
/// network contains no other, as it does if `is_leaf`, this is one line, and no walk is needed.
fn tell_change<W: Write>(
    table: &RouteTable,
    net: &IpNet,
    before: Option<u32>,
    after: Option<u32>,
    is_leaf: bool,
    writer: &mut Counted<W>,
) -> Result<(), RunError>
    requires count { CanCount writer.old }
    requires leaf { IsTrue is_leaf → GovernsAll table.now (block net.now) }
    ensures same { before ≡ after → Closes W.contents 1 writer.old writer.new result (printed (Reply.Close Closing.Done ∷ [])) }
    ensures differs { before ≢ after → TellsGoverned W.contents table.now (block net.now) after writer.old writer.new result }
{
    if before == after {
        return close(writer, Closing::Done);
    }
    if is_leaf || table.is_leaf(net) {
        return reply(writer, Some(change_line(net.trunc(), after)));
    }
    tell_governed(table, net, after, writer)
}

/// Replies with a line for each block that the network governs.
#[inline(never)]
fn tell_governed<W: Write>(
    table: &RouteTable,
    net: &IpNet,
    after: Option<u32>,
    writer: &mut Counted<W>,
) -> Result<(), RunError>
    requires { CanCount writer.old }
    ensures { TellsGoverned W.contents table.now (block net.now) after writer.old writer.new result }
{
    let lines = ChangeLines {
        blocks: table.governed(net),
        hop: after,
    };
    reply(writer, lines)
}
