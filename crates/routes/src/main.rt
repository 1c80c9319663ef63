//! The program `routes`: reads the lines of a route table from standard input, and writes the replies to standard output.
#![tactic(auto)]

ghost use Rattle.std.specs.Prelude.{◌≡◌, ◌≤◌, ◌+◌, ◌^◌, ◌↔◌, ◌⊎◌, [], ◌∷◌, drop, map, IfErr, IfOk, IfSome, IsErrOf, Ok, OnOk, Some};
ghost use Rattle.std.specs.String.{string_bytes};
ghost use Rattle.std.specs.Vec.Iter.{into_iter_items};
ghost use Rattle.route_program.specs.Counted.{CanRead, CanRun, ReadFault};
ghost use Rattle.route_program.specs.Devices.{MetEnd};
ghost use Rattle.route_feed.specs.Follows.{MeetsAnother};
ghost use Rattle.route_program.specs.Status.{status_of};
ghost use Rattle.route_program.specs.declared.error.RunError.{RunError as AnyRunError};
ghost use Rattle.routes.specs.Asked.{AnyMode, word_of};
ghost use Rattle.routes.specs.Runs.{ModeEnds, MayFailToWrite, MayLackMemory, ModeWrites};

use route_feed::{follow_then, lead_then, shorten};
use route_program::{AtEnd, Counted, Input, OUTPUT_BUFFER, Output, RunError, release, write_out};
use std::alloc::{Allocator, Global};
use std::cell::Cell;
use std::env;
use std::env::{Args, Env};
use std::io::{BufWriter, Read, Write};
use std::process::ExitCode;
use thiserror::Error;

/// The mode of the program.
#[derive(Clone, Copy, PartialEq, Eq)]
enum Mode {
    /// Carries out command lines.
    Lead,
    /// Follows the reply lines of a leader.
    Follow,
    /// Follows them, and writes the commands of a least table.
    Least,
}

/// Why the program ends with a status above 0. Each fault prints its line on standard error.
#[derive(Clone, Copy, Debug, PartialEq, Eq, Error)]
enum Fault {
    /// The arguments can't be read.
    #[error("routes: no memory")]
    Arguments,
    /// The arguments aren't exactly one mode.
    #[error("usage: routes lead, routes follow or routes least")]
    Usage,
    /// The run ended early.
    #[error("routes: {0}")]
    Run(RunError),
}

impl Fault {
    /// The exit status.
    fn status(&self) -> u8
        ensures arguments { self.now ≡ Fault.Arguments → result ≡ 1 }
        ensures usage { self.now ≡ Fault.Usage → result ≡ 2 }
        ensures run { (error : AnyRunError) → self.now ≡ Fault.Run error → result ≡ status_of error }
    {
        match self {
            Fault::Arguments => 1,
            Fault::Usage => 2,
            Fault::Run(error) => error.status(),
        }
    }
}

// The mode that the arguments name.
fn asked_mode<R: Env + Alloc>(rt: &R) -> Result<Mode, Fault>
    ensures { IfErr result (λ e. (e ≡ Fault.Arguments) ⊎ (e ≡ Fault.Usage)) }
{
    match env::args(rt) {
        Ok(args) => mode_of(args),
        Err(_) => Err(Fault::Arguments),
    }
}

// The mode with this name.
fn named(word: &str) -> Option<Mode>
    ensures { (mode : AnyMode) → (result ≡ Some mode) ↔ (word.now ≡ word_of mode) }
{
    match word {
        "lead" => Some(Mode::Lead),
        "follow" => Some(Mode::Follow),
        "least" => Some(Mode::Least),
        _ => None,
    }
}

// The mode that these arguments name: exactly one word must follow the program's name.
fn mode_of<A: Allocator>(mut args: Args<A>) -> Result<Mode, Fault>
    ensures asks { (mode : AnyMode) → (result ≡ Ok mode) ↔ (drop 1 (map string_bytes (into_iter_items args)) ≡ word_of mode ∷ []) }
    ensures usage { IfErr result (λ e. e ≡ Fault.Usage) }
{
    let _program = args.next();
    let (Some(word), None) = (args.next(), args.next()) else {
        return Err(Fault::Usage);
    };
    match named(word.as_str()) {
        Some(mode) => Ok(mode),
        None => Err(Fault::Usage),
    }
}

// Leads, follows or compresses. The program exits next, so a leader or a follower leaves its memory to the system.
fn run_as<R: Read, W: Write>(
    mode: Mode,
    alloc: Global,
    reader: &mut Counted<R>,
    writer: &mut Counted<W>,
) -> Result<(), RunError>
    requires { CanRun reader.old writer.old }
    ensures ends { ModeEnds R.remaining W.contents mode reader.old reader.new writer.old writer.new result }
    ensures reads { reader.new.reads ≤ reader.old.reads + 2 ^ 62 }
    ensures known { OnOk result (IfSome (R.remaining reader.old.device) (λ bytes. ModeWrites mode bytes (W.contents writer.old.device) (W.contents writer.new.device))) }
{
    match mode {
        Mode::Lead => lead_then(alloc, reader, writer, AtEnd::Leak),
        Mode::Follow => follow_then(alloc, reader, writer, AtEnd::Leak),
        Mode::Least => shorten(alloc, reader, writer),
    }
}

// Runs in this mode from the input to the output, and returns the output. A reply is written out when no more lines are available. If a
// write fails, the bytes that are left are dropped. A leader never meets a line that it can't reply to.
fn run_mode<R: Read, W: Write + Drop>(
    mode: Mode,
    alloc: Global,
    reader: &mut Counted<R>,
    output: W,
    more: &Cell<bool>,
) -> Result<W, RunError>
    requires { CanRead reader.old }

    // On success the output for all input was written, and one read met the end.
    ensures known { IfOk result (λ w. IfSome (R.remaining reader.old.device) (λ bytes. ModeWrites mode bytes (W.contents output) (W.contents w))) }
    ensures end { OnOk result (MetEnd R.remaining reader.old reader.new) }

    // An error comes only at these points of the input.
    ensures read { IsErrOf result RunError.Read → ReadFault reader.old reader.new }
    ensures memory { IsErrOf result RunError.Memory → MayLackMemory R.remaining mode reader.old reader.new }
    ensures write { IsErrOf result RunError.Write → MayFailToWrite R.remaining mode reader.old reader.new }
    ensures line { IsErrOf result RunError.Line → ((mode ≡ Mode.Follow) ⊎ (mode ≡ Mode.Least)) × MeetsAnother R.remaining reader.old reader.new }

    // Other errors come without a fault of the reader, and the reads are bounded.
    ensures read_well { (IsErrOf result RunError.Read → ⊥) → reader.new.faults ≡ reader.old.faults }
    ensures reads { reader.new.reads ≤ reader.old.reads + 2 ^ 62 }
{
    let Ok(buffered) = BufWriter::with_capacity(alloc, OUTPUT_BUFFER, output) else {
        return Err(RunError::Memory);
    };
    let mut writer = Counted::new(Output::new(buffered, more));
    match run_as(mode, alloc, reader, &mut writer) {
        Ok(()) => write_out(writer.into_inner().into_inner()),
        Err(error) => {
            release(writer.into_inner().into_inner());
            Err(error)
        }
    }
}

fn run(rt: &HostRuntime) -> Result<(), Fault> {
    let mode = asked_mode(rt)?;
    let more = Cell::new(false);
    let mut reader = Counted::new(Input::new(rt.stdin(), &more));
    match run_mode(mode, rt.alloc(), &mut reader, rt.stdout(), &more) {
        Ok(_output) => Ok(()),
        Err(error) => Err(Fault::Run(error)),
    }
}

fn main(rt: HostRuntime) -> ExitCode {
    match run(&rt) {
        Ok(()) => ExitCode::SUCCESS,
        Err(fault) => {
            let _ = eprintln!(rt; "{fault}");
            ExitCode::from(fault.status())
        }
    }
}
