//! An installer: keeps an installed table in sync with a leader's reply lines.
ghost use Rattle.std.specs.Prelude.{◌≡◌, ◌≢◌, ◌<◌, ◌++◌, ◌∷◌, [], All, IfErr, IfOk, IsOk, OnErr, OnOk, length, map, false, true};
ghost use Rattle.ipnet.specs.IpNets.{family, parts};
ghost use Rattle.ipnet_blocks.specs.Networks.{IsTruncated};
ghost use Rattle.route_choices.specs.Choices.{default_preference};
ghost use Rattle.route_laws.specs.LeastTables.{IsLeast, routes_for};
ghost use Rattle.route_laws.specs.Nearest.{IsNearest};
ghost use Rattle.route_laws.specs.Networks.{routes_of};
ghost use Rattle.route_laws.specs.Operations.{between};
ghost use Rattle.route_laws.specs.Painted.{painted_all};
ghost use Rattle.route_laws.specs.Tables.{IsTable, hop_at, route_of};
ghost use Rattle.route_lines.specs.declared.fib_input.FibInput.{FibInput};
ghost use Rattle.route_table.specs.Operations.{network_of, operation_of};
ghost use Rattle.route_program.specs.Counted.{CanCount};
ghost use Rattle.route_program.specs.Devices.{Closes};
ghost use Rattle.route_installer.specs.Installing.{begin, route_to};
ghost use Rattle.route_feed.specs.Lines.{HaveNoHostBits};
ghost use Rattle.route_installer.specs.InnerInstalling.{Has, Replaces, TakesNote, batch_bytes};
ghost use Rattle.route_feed.specs.InnerWaiting.{changes_of, waiting_change};
ghost use Rattle.route_lines.specs.declared.reply.Closing.{Closing};
ghost use Rattle.route_lines.specs.declared.reply.Reply.{Reply};

use crate::operations::{Operations, write_operations};
use ipnet::IpNet;
use route_lines::{Closing, FibInput, Reply};
use route_program::{Counted, RunError, close};
use route_table::{Hop, HopTable, Operation};
use std::alloc::Global;
use std::io::Write;
use std::marker::Model;

/// The hops that a leader's reply lines report, as a table, and the table that is installed elsewhere. From the first `sync` on both are
/// the same table.
#[derive(Drop)]
pub(crate) struct Installer {
    alloc: Global,
    table: HopTable,
    /// The installed table before the first `sync`.
    before: Option<HopTable>,
    waiting: Vec<(IpNet, Hop)>,
}

impl Model for Installer {
    ghost use Rattle.route_installer.specs.Installing.{Installing};
    ghost use Rattle.route_installer.specs.InnerInstalling.{tables_of};
    ghost use Rattle.route_feed.specs.InnerWaiting.{changes_of};

    ghost Value = { Installing };

    ghost view = { λ i. record { tables = tables_of i.table i.before; pending = changes_of i.waiting.items } };
}

/// Carries out the changes, in order.
fn paint_all(table: &mut HopTable, changes: &[(IpNet, Hop)]) -> Result<(), RunError>
    ensures routes { OnOk result (routes_of table.new ≡ painted_all (routes_of table.old) (routes_for changes.now)) }
    ensures memory { IfErr result (λ e. e ≡ RunError.Memory) }
    ensures some { OnErr result (0 < length changes.now) }
{
    for change in changes {
        table.paint(change.0, change.1)?;
    }
    Ok(())
}

/// Writes the batch of the operations.
fn give_batch<W: Write, O: Operations>(
    writer: &mut Counted<W>,
    operations: O,
) -> Result<(), RunError>
    requires counts { CanCount writer.old }
    requires operations { O.can_give operations }
    ensures { Closes W.contents 1 writer.old writer.new result (batch_bytes (O.left operations)) }
{
    write_operations(writer, operations)?;
    close(writer, Closing::Done)
}

/// A least table with the hops of the table.
fn least(table: &HopTable) -> Result<Vec<(IpNet, Hop)>, RunError>
    ensures least { IfOk result (λ list. IsLeast (hop_at (routes_of table.now)) (routes_for list.items)) }
    ensures truncated { IfOk result (λ list. HaveNoHostBits list.items) }
    ensures memory { IfErr result (λ e. e ≡ RunError.Memory) }
{
    Ok(table.least()?)
}

/// The table of a list such as the result of `least`.
fn table_of(alloc: Global, list: &[(IpNet, Hop)]) -> Result<HopTable, RunError>
    requires { IsTable (routes_for list.now) }
    ensures routes { IfOk result (λ table. routes_of table ≡ routes_for list.now) }
    ensures memory { IfErr result (λ e. e ≡ RunError.Memory) }
{
    Ok(HopTable::from_routes(alloc, list)?)
}

/// Carries out the changes by the fewest operations, and returns these.
fn update(table: &mut HopTable, changes: &[(IpNet, Hop)]) -> Result<Vec<Operation>, RunError>
    ensures nearest { IfOk result (λ operations. IsNearest (routes_of table.old) (hop_at (painted_all (routes_of table.old) (routes_for changes.now))) (routes_of table.new)) }
    ensures operations { IfOk result (λ operations. map operation_of operations.items ≡ between (routes_of table.old) (routes_of table.new)) }
    ensures truncated { IfOk result (λ operations. All (λ o. IsTruncated (family (network_of o)) (parts (network_of o))) operations.items) }
    ensures memory { IfErr result (λ e. e ≡ RunError.Memory) }
{
    let operations = table.updates(changes)?;
    table.carry_out(operations.as_slice())?;
    Ok(operations)
}

/// Whether the table has as many networks as the list.
fn has_as_many(table: &HopTable, list: &[(IpNet, Hop)]) -> bool
    ensures same { result ≡ true → length (routes_of table.now) ≡ length list.now }
    ensures other { result ≡ false → length (routes_of table.now) ≢ length list.now }
    ensures table { IsTable (routes_of table.now) }
{
    let (v4, v6) = table.count();
    v4 <= list.len() && list.len() - v4 == v6
}

impl Installer {
    /// Makes an installer: nothing is installed, and no address has a hop.
    ///
    /// # Errors
    /// None. The `Result` leaves room for an implementation that allocates here.
    pub(crate) fn new(alloc: Global) -> Result<Installer, RunError>
        ensures ok { IsOk result }
        ensures state { IfOk result (λ i. i ≡ begin) }
    {
        Ok(Installer {
            alloc,
            table: HopTable::new(alloc)?,
            before: Some(HopTable::new(alloc)?),
            waiting: Vec::new(alloc),
        })
    }

    /// The installed table.
    fn installed(&self) -> &HopTable
        ensures { routes_of result.now ≡ self.now.tables.installed }
    {
        match &self.before {
            Some(before) => before,
            None => &self.table,
        }
    }

    /// Processes a line.
    pub(crate) fn take_note<W: Write>(
        &mut self,
        note: FibInput,
        writer: &mut Counted<W>,
    ) -> Result<(), RunError>
        requires { CanCount writer.old }
        ensures { TakesNote W.contents self.old note writer.old result self.new writer.new }
    {
        match note {
            FibInput::Have { net, hop } => self.have(net, hop),
            FibInput::Sync => self.sync(writer),
            FibInput::Reply(line) => self.reply(line, writer),
        }
    }

    /// Records a route that is installed already.
    fn have(&mut self, net: IpNet, hop: Hop) -> Result<(), RunError>
        ensures { Has self.old (route_of net hop default_preference) result self.new }
    {
        let Some(before) = &mut self.before else {
            return Err(RunError::Line);
        };
        before.install(net, hop)?;
        Ok(())
    }

    /// Writes the operations that turn the installed table into the table of the list, which is the installed table from now on.
    fn replace<W: Write>(
        &mut self,
        list: &[(IpNet, Hop)],
        writer: &mut Counted<W>,
    ) -> Result<(), RunError>
        requires counts { CanCount writer.old }
        requires table { IsTable (routes_for list.now) }
        requires truncated { HaveNoHostBits list.now }
        ensures { Replaces W.contents self.old (routes_for list.now) writer.old result self.new writer.new }
    {
        let table = table_of(self.alloc, list)?;
        give_batch(writer, self.installed().between(list))?;
        self.keep_table(table);
        Ok(())
    }

    /// Makes this table the installed one.
    fn keep_table(&mut self, table: HopTable)
        ensures tables { self.new.tables ≡ record { table = routes_of table; installed = routes_of table; kept = true } }
        ensures pending { self.new.pending ≡ self.old.pending }
    {
        self.table = table;
        self.before = None;
    }

    /// Turns the installed table into a least table of the committed hops. If it is one already, it stays.
    fn sync<W: Write>(&mut self, writer: &mut Counted<W>) -> Result<(), RunError>
        requires { CanCount writer.old }
        ensures { TakesNote W.contents self.old FibInput.Sync writer.old result self.new writer.new }
    {
        let list = least(&self.table)?;
        if self.before.is_none() && has_as_many(&self.table, list.as_slice()) {
            return close(writer, Closing::Done);
        }
        self.replace(list.as_slice(), writer)
    }

    /// Processes a reply line.
    fn reply<W: Write>(&mut self, line: Reply, writer: &mut Counted<W>) -> Result<(), RunError>
        requires { CanCount writer.old }
        ensures { TakesNote W.contents self.old (FibInput.Reply line) writer.old result self.new writer.new }
    {
        match line {
            Reply::Set { net, number } => self.keep(net, Hop::Number(number)),
            Reply::Unset { net } => self.keep(net, Hop::Drop),
            Reply::Close(Closing::Done) => self.commit(writer),
            Reply::Close(_) => {
                self.waiting.clear();
                Ok(())
            }
            _ => Ok(()),
        }
    }

    /// Keeps a change until its reply is closed.
    fn keep(&mut self, net: IpNet, hop: Hop) -> Result<(), RunError>
        ensures tables { self.new.tables ≡ self.old.tables }
        ensures pending { OnOk result (self.new.pending ≡ self.old.pending ++ waiting_change (net, hop) ∷ []) }
        ensures memory { IfErr result (λ e. e ≡ RunError.Memory) }
    {
        self.waiting.push((net, hop))?;
        Ok(())
    }

    /// Commits the pending changes.
    fn commit<W: Write>(&mut self, writer: &mut Counted<W>) -> Result<(), RunError>
        requires { CanCount writer.old }
        ensures { TakesNote W.contents self.old (FibInput.Reply (Reply.Close Closing.Done)) writer.old result self.new writer.new }
    {
        if self.before.is_some() {
            self.commit_unseen()
        } else if self.waiting.is_empty() {
            Ok(())
        } else {
            self.commit_seen(writer)
        }
    }

    /// Commits the pending changes before the first `sync`: nothing is written.
    fn commit_unseen(&mut self) -> Result<(), RunError>
        requires { self.old.tables.kept ≡ false }
        ensures table { OnOk result (self.new.tables ≡ record { table = painted_all self.old.tables.table (map route_to self.old.pending); installed = self.old.tables.installed; kept = false }) }
        ensures pending { OnOk result (self.new.pending ≡ []) }
        ensures memory { IfErr result (λ e. e ≡ RunError.Memory) }
        ensures some { OnErr result (0 < length self.old.pending) }
    {
        paint_all(&mut self.table, self.waiting.as_slice())?;
        self.waiting.clear();
        Ok(())
    }

    /// Commits the pending changes, and writes the operations for them. Nothing is written before the table has all of them, so no batch is
    /// cut off for want of memory.
    fn commit_seen<W: Write>(&mut self, writer: &mut Counted<W>) -> Result<(), RunError>
        requires counts { CanCount writer.old }
        requires kept { self.old.tables.kept ≡ true }
        requires some { 0 < length self.old.pending }
        ensures { TakesNote W.contents self.old (FibInput.Reply (Reply.Close Closing.Done)) writer.old result self.new writer.new }
    {
        let operations = update(&mut self.table, self.waiting.as_slice())?;
        give_batch(writer, operations.as_slice())?;
        self.waiting.clear();
        Ok(())
    }
}
