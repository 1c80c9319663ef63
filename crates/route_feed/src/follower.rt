//! A follower: the hops that a leader's reply lines report.
ghost use Rattle.std.specs.Prelude.{◌≡◌, ◌<◌, ◌++◌, ◌∷◌, [], true, false, length, Some, None, All, IfErr, IfNone, IfOk, IfSome, IsErrOf, IsOk, Ok, OnErr, OnOk};
ghost use Rattle.ipnet_addr.specs.Addresses.{Address, IsAddress, address_of};
ghost use Rattle.ipnet.specs.IpNets.{family, parts};
ghost use Rattle.ipnet_blocks.specs.Networks.{IsTruncated};
ghost use Rattle.route_lines.specs.Spelled.{reply_of};
ghost use Rattle.route_lines.specs.declared.reply.Reply.{Reply};
ghost use Rattle.route_laws.specs.Flats.{IsFlat};
ghost use Rattle.route_laws.specs.LeastTables.{IsLeast, routes_for};
ghost use Rattle.route_laws.specs.Networks.{routes_of};
ghost use Rattle.route_laws.specs.Tables.{hop_at};
ghost use Rattle.route_program.specs.declared.error.RunError.TheVariants as run;
ghost use Rattle.route_feed.specs.declared.follower.FollowError.TheVariants as follow;
ghost use Rattle.route_feed.specs.Following.{FollowsLine, HasFirst, LacksMemory, State, TakesLine};
ghost use Rattle.route_feed.specs.Streams.{painted_over, WantsMemory};
ghost use Rattle.route_feed.specs.InnerWaiting.{changes_of, waiting_change};

use ipnet::{IpAddr, IpNet};
use route_lines::{Closing, Reply};
use route_program::{Counted, RunError, Sink};
use route_table::{Flat, Hop, HopTable, LeastRoutes, Refused};
use std::alloc::{AllocFailed, Global};
use std::io::Write;
use std::marker::Model;
use thiserror::Error;

/// Why a line was not accepted.
#[derive(Clone, Copy, Debug, PartialEq, Eq, Error)]
pub enum FollowError {
    /// An allocation failed, for keeping a change or for committing it.
    #[error("no memory")]
    Memory,
    /// The text isn't a reply line.
    #[error("not a reply line")]
    NotALine,
    /// There was a fault before.
    #[error("failed before")]
    Failed,
}

/// An allocation failed.
impl<T: Drop> From<AllocFailed<T>> for FollowError {
    ghost from_gives = { λ _ e. e ≡ follow.Memory };

    fn from(_refused: AllocFailed<T>) -> FollowError {
        FollowError::Memory
    }
}

/// An allocation of a table failed; a table is never full.
impl From<Refused> for FollowError {
    ghost from_gives = { λ _ e. e ≡ follow.Memory };

    fn from(_refused: Refused) -> FollowError {
        FollowError::Memory
    }
}

/// The error of a run whose follower doesn't accept a line.
impl From<FollowError> for RunError {
    ghost from_gives = { λ a e. (a ≡ follow.Memory → e ≡ run.Memory) × ((a ≡ follow.Memory → ⊥) → e ≡ run.Line) };

    fn from(why: FollowError) -> RunError {
        match why {
            FollowError::Memory => RunError::Memory,
            FollowError::NotALine => RunError::Line,
            FollowError::Failed => RunError::Line,
        }
    }
}

/// The hops that the reply lines of a leader report, in a table of its own.
///
/// `set` and `unset` lines are pending until their reply is closed. `ok` commits them in order, and `none`, `bad` and `refused` drop
/// them. All other lines change nothing. After a fault, a follower accepts no more lines.
///
/// # Examples
/// The hop of an address, `host`, inside 10.0.0.0/8:
///
/// ```rust
/// let mut follower = Follower::new(rt.alloc())?;
/// follower.line(b"set 10.0.0.0/8 1")?;
/// assert_eq!(rt; follower.hop(host), None);
/// follower.line(b"ok")?;
/// assert_eq!(rt; follower.hop(host), Some(1));
/// ```
#[derive(Drop)]
pub struct Follower {
    table: HopTable,
    waiting: Vec<(IpNet, Hop)>,
    failed: bool,
}

impl Model for Follower {
    ghost use Rattle.route_feed.specs.Following.{State};
    ghost use Rattle.route_feed.specs.InnerWaiting.{changes_of};

    ghost Value = { State };

    ghost view = { λ f. record { table = f.table; pending = changes_of f.waiting.items; failed = f.failed } };
}

/// Commits the changes, in order.
fn carry_out(table: &mut HopTable, changes: &[(IpNet, Hop)]) -> Result<(), FollowError>
    ensures hops { OnOk result ((x : Address) → IsAddress x → hop_at (routes_of table.new) x ≡ painted_over (hop_at (routes_of table.old) x) (changes_of changes.now) x) }
    ensures memory { IfErr result (λ e. e ≡ FollowError.Memory) }
    ensures some { OnErr result (0 < length changes.now) }
    ensures first { OnErr result (HasFirst table.old (changes_of changes.now) table.new) }
{
    for change in changes {
        table.overwrite(change.0, change.1)?;
    }
    Ok(())
}

impl Follower {
    /// Makes a follower that has read no line: no address has a hop.
    ///
    /// # Errors
    /// None. The `Result` leaves room for an implementation that allocates here.
    ///
    /// # Examples
    /// ```rust
    /// let mut follower = Follower::new(rt.alloc())?;
    /// assert_eq!(rt; follower.line(b"set 10.0.0.0/8 1"), Ok(()));
    /// assert_eq!(rt; follower.line(b"ok"), Ok(()));
    /// assert_eq!(rt; follower.failed(), false);
    /// ```
    pub fn new(alloc: Global) -> Result<Follower, RunError>
        ensures ok { IsOk result }
        ensures state { IfOk result (λ f. f ≡ record { table = []; pending = []; failed = false }) }
    {
        Ok(Follower {
            table: HopTable::new(alloc)?,
            waiting: Vec::new(alloc),
            failed: false,
        })
    }

    /// Returns whether there was a fault.
    ///
    /// # Examples
    /// ```rust
    /// assert_eq!(rt; follower.failed(), false);
    /// assert_eq!(rt; follower.line(b"ok "), Err(FollowError::NotALine));
    /// assert_eq!(rt; follower.failed(), true);
    /// ```
    pub fn failed(&self) -> bool
        ensures { result ≡ self.now.failed }
    {
        self.failed
    }

    /// Returns the flat list of the hops, or `None` after a fault.
    ///
    /// # Examples
    /// After a fault:
    ///
    /// ```rust
    /// assert_eq!(rt; follower.line(b"ok"), Err(FollowError::Failed));
    /// assert_eq!(rt; follower.flat().is_none(), true);
    /// ```
    pub fn flat(&self) -> Option<Flat<'_>>
        ensures works { IfNone result (self.now.failed ≡ true) }
        ensures failed { self.now.failed ≡ true → result ≡ None }
        ensures flat { IfSome result (λ pieces. IsFlat (hop_at (routes_of self.now.table)) pieces) }
    {
        if self.failed {
            return None;
        }
        Some(self.pieces())
    }

    /// Returns the hop of an address, or `None` if it has none. Does not allocate.
    ///
    /// If memory ran out at an `ok`, only some changes of this reply may be committed. Check `failed` first if you need all of them.
    ///
    /// # Examples
    /// If `host` is an address inside 10.0.0.0/8:
    ///
    /// ```rust
    /// follower.line(b"set 10.0.0.0/8 1")?;
    /// assert_eq!(rt; follower.hop(host), None);
    /// follower.line(b"ok")?;
    /// assert_eq!(rt; follower.hop(host), Some(1));
    /// ```
    pub fn hop(&self, addr: IpAddr) -> Option<u32>
        ensures { result ≡ hop_at (routes_of self.now.table) (address_of addr) }
    {
        let (_, hop, _) = self.table.get(&IpNet::from(addr))?;
        hop.number()
    }

    /// Returns the routes of a smallest table with these hops, as `RouteTable::least` does, or `None` after a fault.
    ///
    /// # Errors
    /// `Memory` if an allocation fails. This is no fault of the follower, and a later call may succeed.
    ///
    /// # Examples
    /// If only 10.0.0.0/8 has a hop:
    ///
    /// ```rust
    /// let least = follower.least()?.expect(&rt, "no fault");
    /// assert_eq!(rt; least.len(), 1);
    /// ```
    pub fn least(&self) -> Result<Option<Vec<(IpNet, Hop)>>, RunError>
        // The result is `Ok(None)` exactly after a fault of the follower.
        ensures works { IfOk result (λ found. IfNone found (self.now.failed ≡ true)) }
        ensures failed { self.now.failed ≡ true → result ≡ Ok None }

        // On success the routes are a smallest table with the hops of the follower, on networks without host bits.
        ensures least { IfOk result (λ found. IfSome found (λ routes. IsLeast (hop_at (routes_of self.now.table)) (routes_for routes.items))) }
        ensures truncated { IfOk result (λ found. IfSome found (λ routes. All (λ r. IsTruncated (family r.0) (parts r.0)) routes.items)) }

        // It fails only for lack of memory.
        ensures memory { IfErr result (λ e. e ≡ RunError.Memory) }
    {
        if self.failed {
            return Ok(None);
        }
        Ok(Some(self.table.least()?))
    }

    /// The flat list of the hops.
    pub(crate) fn pieces(&self) -> Flat<'_>
        ensures { IsFlat (hop_at (routes_of self.now.table)) result }
    {
        self.table.flat()
    }

    /// The routes of a smallest table with these hops.
    pub(crate) fn into_least(self) -> Result<LeastRoutes, RunError>
        ensures least { IfOk result (λ routes. IsLeast (hop_at (routes_of self.table)) (routes_for routes)) }
        ensures truncated { IfOk result (λ routes. All (λ r. IsTruncated (family r.0) (parts r.0)) routes) }
        ensures memory { IfErr result (λ e. e ≡ RunError.Memory) }
    {
        Ok(self.table.into_least()?)
    }

    /// Reads a line, without its line end.
    ///
    /// # Errors
    /// - `Failed` exactly after a fault; then nothing changes.
    /// - `NotALine` exactly if there was no fault before and the text isn't a reply line. The table and the pending changes stay.
    /// - `Memory` if an allocation fails: at a line with a change, or at an `ok` with pending changes. The pending changes stay. So does
    ///   the table at a line with a change; at `ok` the first few of the pending changes may be applied.
    ///
    /// Both `NotALine` and `Memory` are faults.
    ///
    /// # Examples
    /// Without a fault before:
    ///
    /// ```rust
    /// assert_eq!(rt; follower.line(b"ok "), Err(FollowError::NotALine));
    /// assert_eq!(rt; follower.failed(), true);
    /// assert_eq!(rt; follower.line(b"ok"), Err(FollowError::Failed));
    /// ```
    pub fn line(&mut self, text: &[u8]) -> Result<(), FollowError>
        // On success the text is a reply line, which the follower has taken; there was no fault before or after.
        ensures ok { OnOk result ((line : Reply) × (reply_of text.now ≡ Some line) × TakesLine self.old self.new line) }
        ensures works { OnOk result ((self.old.failed ≡ false) × (self.new.failed ≡ false)) }

        // `NotALine` means another text, `Memory` a line that may need memory, and `Failed` an earlier fault, after which nothing changes.
        ensures not_a_line { IsErrOf result FollowError.NotALine → (self.old.failed ≡ false) × (reply_of text.now ≡ None) }
        ensures memory { IsErrOf result FollowError.Memory → (self.old.failed ≡ false) × (line : Reply) × (reply_of text.now ≡ Some line) × WantsMemory self.old.pending line }
        ensures failed { IsErrOf result FollowError.Failed → (self.old.failed ≡ true) × (self.new ≡ self.old) }

        // After each error the follower has failed; pending changes stay, and so does the table, except at an `ok` without memory.
        ensures stays { IsErrOf result FollowError.NotALine → (self.new.table ≡ self.old.table) × (self.new.pending ≡ self.old.pending) }
        ensures lacks { IsErrOf result FollowError.Memory → (line : Reply) × (reply_of text.now ≡ Some line) × LacksMemory self.old self.new line }
        ensures fault { OnErr result (self.new.failed ≡ true) }
    {
        if self.failed {
            return Err(FollowError::Failed);
        }
        let result = self.read(text);
        if result.is_err() {
            self.failed = true;
        }
        result
    }

    fn read(&mut self, text: &[u8]) -> Result<(), FollowError>
        ensures ok { OnOk result ((line : Reply) × (reply_of text.now ≡ Some line) × TakesLine self.old self.new line) }
        ensures not_a_line { IsErrOf result FollowError.NotALine → reply_of text.now ≡ None }
        ensures memory { IsErrOf result FollowError.Memory → (line : Reply) × (reply_of text.now ≡ Some line) × WantsMemory self.old.pending line }
        ensures stays { IsErrOf result FollowError.NotALine → (self.new.table ≡ self.old.table) × (self.new.pending ≡ self.old.pending) }
        ensures lacks { IsErrOf result FollowError.Memory → (line : Reply) × (reply_of text.now ≡ Some line) × LacksMemory self.old self.new line }
        ensures never { IsErrOf result FollowError.Failed → ⊥ }
        ensures failed { self.new.failed ≡ self.old.failed }
    {
        let Ok(line) = Reply::read(text) else {
            return Err(FollowError::NotALine);
        };
        self.take(line)
    }

    fn take(&mut self, line: Reply) -> Result<(), FollowError>
        ensures ok { OnOk result (TakesLine self.old self.new line) }
        ensures memory { IfErr result (λ e. e ≡ FollowError.Memory) }
        ensures wanted { OnErr result (WantsMemory self.old.pending line) }
        ensures lacks { OnErr result (LacksMemory self.old self.new line) }
        ensures failed { self.new.failed ≡ self.old.failed }
    {
        match line {
            Reply::Set { net, number } => self.keep(net, Hop::Number(number)),
            Reply::Unset { net } => self.keep(net, Hop::Drop),
            Reply::Close(Closing::Done) => self.commit(),
            Reply::Close(_) => {
                self.waiting.clear();
                Ok(())
            }
            _ => Ok(()),
        }
    }

    /// Keeps a change until its reply is closed.
    fn keep(&mut self, net: IpNet, hop: Hop) -> Result<(), FollowError>
        ensures table { self.new.table ≡ self.old.table }
        ensures pending { OnOk result (self.new.pending ≡ self.old.pending ++ waiting_change (net, hop) ∷ []) }
        ensures stays { OnErr result (self.new.pending ≡ self.old.pending) }
        ensures memory { IfErr result (λ e. e ≡ FollowError.Memory) }
        ensures failed { self.new.failed ≡ self.old.failed }
    {
        self.waiting.push((net, hop))?;
        Ok(())
    }

    /// Commits the pending changes.
    fn commit(&mut self) -> Result<(), FollowError>
        ensures hops { OnOk result ((x : Address) → IsAddress x → hop_at (routes_of self.new.table) x ≡ painted_over (hop_at (routes_of self.old.table) x) self.old.pending x) }
        ensures pending { OnOk result (self.new.pending ≡ []) }
        ensures first { OnErr result (HasFirst self.old.table self.old.pending self.new.table) }
        ensures stays { OnErr result (self.new.pending ≡ self.old.pending) }
        ensures memory { IfErr result (λ e. e ≡ FollowError.Memory) }
        ensures some { OnErr result (0 < length self.old.pending) }
        ensures failed { self.new.failed ≡ self.old.failed }
    {
        carry_out(&mut self.table, self.waiting.as_slice())?;
        self.waiting.clear();
        Ok(())
    }
}

/// A follower reads each line, and writes nothing meanwhile.
impl<W: Write> Sink<W> for Follower {
    ghost can_take = { λ follower writer. follower.failed ≡ false };

    ghost takes = { λ follower line old result next new. FollowsLine follower line result next × (new ≡ old) };

    fn take(&mut self, text: Option<&[u8]>, _writer: &mut Counted<W>) -> Result<(), RunError> {
        let Some(text) = text else {
            self.failed = true;
            return Err(RunError::Line);
        };
        self.line(text)?;
        Ok(())
    }
}
