//! The program `routes_fib`: reads a leader's reply lines from standard input, and writes operations on a forwarding table to standard
//! output.
#![tactic(auto)]

ghost use Rattle.std.specs.Prelude.{◌≡◌, ◌≤◌, ◌+◌, ◌^◌, ◌↔◌, ◌⊎◌, [], drop, IfErr, IfOk, IfSome, IsErrOf, IsOk, OnOk};
ghost use Rattle.std.specs.Vec.Iter.{into_iter_items};
ghost use Rattle.route_program.specs.Counted.{CanRead, ReadFault};
ghost use Rattle.route_program.specs.Devices.{MetEnd};
ghost use Rattle.route_installer.specs.Installs.{AppendsInstalled};
ghost use Rattle.route_program.specs.Status.{status_of};
ghost use Rattle.route_program.specs.declared.error.RunError.{RunError as AnyRunError};
ghost use Rattle.route_lines.specs.Bytes.{lines};
ghost use Rattle.route_program.specs.declared.error.RunError.TheVariants as ended;
ghost use Rattle.routes_fib.specs.declared.Fault.TheVariants as fault;
ghost use Rattle.routes_fib.specs.Ends.{MeetsNote, MeetsUnfitLine, MeetsWantingLine, ReadsNotes};

use route_installer::install;
use route_program::{Counted, OUTPUT_BUFFER, RunError, release, write_out};
use std::alloc::{Allocator, Global};
use std::env;
use std::env::{Args, Env};
use std::io::{BufWriter, Read, Write};
use std::process::ExitCode;
use thiserror::Error;

/// Why the program ends with a status above 0. Each fault prints its line on standard error.
#[derive(Clone, Copy, Debug, PartialEq, Eq, Error)]
enum Fault {
    /// The arguments can't be read.
    #[error("routes_fib: no memory")]
    Arguments,
    /// There is an argument; the program takes none.
    #[error("usage: routes_fib")]
    Usage,
    /// A line is outside the grammar, or is a `have` line after a `sync`.
    #[error("routes_fib: unexpected line")]
    Line,
    /// The run ended early for another reason.
    #[error("routes_fib: {0}")]
    Run(RunError),
}

/// The fault of a run that ended early for this reason. An installer reads more than reply lines, so its text for a line is its own.
impl From<RunError> for Fault {
    ghost from_gives = { λ e f. (e ≡ ended.Line → f ≡ fault.Line) × ((e ≡ ended.Line → ⊥) → f ≡ fault.Run e) };

    fn from(error: RunError) -> Fault {
        match error {
            RunError::Line => Fault::Line,
            _ => Fault::Run(error),
        }
    }
}

impl Fault {
    /// The exit status.
    fn status(&self) -> u8
        ensures arguments { self.now ≡ Fault.Arguments → result ≡ 1 }
        ensures usage { self.now ≡ Fault.Usage → result ≡ 2 }
        ensures line { self.now ≡ Fault.Line → result ≡ 5 }
        ensures run { (error : AnyRunError) → self.now ≡ Fault.Run error → result ≡ status_of error }
    {
        match self {
            Fault::Arguments => 1,
            Fault::Usage => 2,
            Fault::Line => RunError::Line.status(),
            Fault::Run(error) => error.status(),
        }
    }
}

// Checks that there are no arguments.
fn see_arguments<R: Env + Alloc>(rt: &R) -> Result<(), Fault>
    ensures { IfErr result (λ e. (e ≡ Fault.Arguments) ⊎ (e ≡ Fault.Usage)) }
{
    match env::args(rt) {
        Ok(args) => see_none(args),
        Err(_) => Err(Fault::Arguments),
    }
}

// Checks that nothing follows the program's name.
fn see_none<A: Allocator>(mut args: Args<A>) -> Result<(), Fault>
    ensures none { IsOk result ↔ (drop 1 (into_iter_items args) ≡ []) }
    ensures usage { IfErr result (λ e. e ≡ Fault.Usage) }
{
    let _program = args.next();
    match args.next() {
        None => Ok(()),
        Some(_) => Err(Fault::Usage),
    }
}

// Keeps a table installed, from the input to the output, and returns the output. Each batch is written out before the next line is read.
// If a write fails, the bytes that are left are dropped.
fn install_by<R: Read, W: Write + Drop>(
    alloc: Global,
    reader: &mut Counted<R>,
    output: W,
) -> Result<W, RunError>
    requires { CanRead reader.old }

    // On success all batches were written, and one read met the end.
    ensures known { IfOk result (λ w. IfSome (R.remaining reader.old.device) (λ bytes. AppendsInstalled (lines bytes) (W.contents output) (W.contents w))) }
    ensures end { OnOk result (MetEnd R.remaining reader.old reader.new) }

    // An error comes only at these points of the input.
    ensures read { IsErrOf result RunError.Read → ReadFault reader.old reader.new }
    ensures line { IsErrOf result RunError.Line → MeetsUnfitLine R.remaining reader.old reader.new }
    ensures memory { IsErrOf result RunError.Memory → (reader.new ≡ reader.old) ⊎ MeetsWantingLine R.remaining reader.old reader.new }
    ensures write { IsErrOf result RunError.Write → MeetsNote R.remaining reader.old reader.new ⊎ ReadsNotes R.remaining reader.old reader.new }

    // Other errors come without a fault of the reader, and the reads are bounded.
    ensures read_well { (IsErrOf result RunError.Read → ⊥) → reader.new.faults ≡ reader.old.faults }
    ensures reads { reader.new.reads ≤ reader.old.reads + 2 ^ 62 }
{
    let Ok(buffered) = BufWriter::with_capacity(alloc, OUTPUT_BUFFER, output) else {
        return Err(RunError::Memory);
    };
    let mut writer = Counted::new(buffered);
    match install(alloc, reader, &mut writer) {
        Ok(()) => write_out(writer.into_inner()),
        Err(error) => {
            release(writer.into_inner());
            Err(error)
        }
    }
}

fn run(rt: &HostRuntime) -> Result<(), Fault> {
    see_arguments(rt)?;
    let mut reader = Counted::new(rt.stdin());
    match install_by(rt.alloc(), &mut reader, rt.stdout()) {
        Ok(_output) => Ok(()),
        Err(error) => Err(Fault::from(error)),
    }
}

fn main(rt: HostRuntime) -> ExitCode {
    match run(&rt) {
        Ok(()) => ExitCode::SUCCESS,
        Err(fault) => {
            let _ = eprintln!(rt; "{fault}");
            ExitCode::from(fault.status())
        }
    }
}
