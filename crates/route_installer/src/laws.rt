//! Theorems about an installer: public functions without a body, whose contracts are the theorems.
ghost use Rattle.route_installer.specs.Laws.{BeginningsAreCarriedOut, BeginningsAreNotes, CutsAgree, HitlessIsTurnsOnce, InstalledAgrees, InstalledAtAllTimes, InstalledIsHitless, InstalledTurnsOnce, LogsAreFirst, NotesGiveBatches, NotesRefineEvents, OperationsReach, OutputAgrees, OutputIsGiven, OutputReadsBack, RepliesAreFewest, SyncsAreLeast, SyncsStay};

/// The table that is installed by an installer. It consists of the routes of the `have` lines, changed by all operations that were
/// written.
///
/// Take the replies of a leader, with `have` lines anywhere before the first `sync`, and `sync` lines anywhere. From the first `sync` on:
///
/// - `hops`: each address has the hop of the leader's table after as many commands as complete replies were read.
/// - `times`: at each moment each address has its hop before the reply or its hop after the reply.
///
/// Take any lines that an installer reads:
///
/// - `turns`: after a `sync`, each address turns at one moment of a line. Before this moment it has the hop that the replies before the
///   line commit, and from it on that of the replies with the line.
/// - `hitless`: the operations of one line change the hop of each address at most once.
/// - `reaches`: the table that the operations lead to is the one that the installer keeps.
/// - `fewest`: after a `sync`, the operations at an `ok` are the fewest of all that bring each address to its committed hop.
/// - `least`: right after a `sync`, no table with the same hops has fewer routes.
/// - `stays`: a later `sync` has no operations if that is so already.
pub fn installed()
    ensures hops { InstalledAgrees }
    ensures times { InstalledAtAllTimes }
    ensures turns { InstalledTurnsOnce }
    ensures hitless { InstalledIsHitless }
    ensures reaches { OperationsReach }
    ensures fewest { RepliesAreFewest }
    ensures least { SyncsAreLeast }
    ensures stays { SyncsStay }
{}

/// The output of an installer.
///
/// - `lines`: apart from `ok`, it consists of the lines of the operations.
/// - `batches`: each line of the input gives nothing, or one batch: the lines of its operations, and then one `ok`.
/// - `read`: the lines are read back as they were written.
/// - `notes`: each line of a leader's output is a line that an installer reads.
/// - `logs`: the reply lines of a log of a leader's output are the first that the leader writes.
/// - `operations`: carrying out the lines of any beginning of the output has the effect of as many operations.
///
/// Take a log with a `sync` and the reply lines of any beginning of a leader's output, and the installer's output for this log.
///
/// - `hops`: after all its operations, each address has the hop of the leader's table after as many commands as complete replies were
///   read.
/// - `times`: cut the output at any byte after its first `ok`. After the operations that are left, each address has the hop of the
///   leader's table after some number of commands, or after one more. The lines up to these commands give as many batches as `ok` lines
///   are left.
pub fn carried_out()
    ensures lines { OutputIsGiven }
    ensures batches { NotesGiveBatches }
    ensures read { OutputReadsBack }
    ensures notes { BeginningsAreNotes }
    ensures logs { LogsAreFirst }
    ensures hops { OutputAgrees }
    ensures operations { BeginningsAreCarriedOut }
    ensures times { CutsAgree }
{}

/// The meaning of some definitions.
///
/// - `moments`: operations are hitless exactly if each address turns at one moment.
/// - `refines`: the tables after notes are those after the events of the notes, from any state on.
pub fn meanings()
    ensures moments { HitlessIsTurnsOnce }
    ensures refines { NotesRefineEvents }
{}
