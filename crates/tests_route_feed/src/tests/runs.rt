//! The runs of `route_feed`, over any devices and over memory.
ghost use Rattle.std.specs.Prelude.{◌≡◌, List, Bool, IfOk};
ghost use Rattle.route_feed.specs.AddLines.{add_lines};
ghost use Rattle.route_feed.specs.Output.{output};
ghost use Rattle.route_feed.specs.Shortens.{IsLeastFor};
ghost use Rattle.route_laws.specs.Tables.{Route};

use crate::tests::rows::{row_is, text_is};
use route_feed::{AtEnd, Counted, RunError, follow, follow_then, lead, lead_then, shorten};
use route_installer::install;
use std::alloc::Global;
use std::io::{Read, Write};
use std::process::Abort;

/// The run to test.
#[derive(Clone, Copy, Debug)]
pub(crate) enum Mode {
    Lead,
    LeadLeaking,
    Follow,
    FollowLeaking,
    Shorten,
    Install,
}

/// Runs over these devices. Returns the result and the two counted devices.
pub(crate) fn run<R: Read, W: Write>(
    alloc: Global,
    mode: Mode,
    given: R,
    taken: W,
) -> (Result<(), RunError>, Counted<R>, Counted<W>) {
    let (mut reader, mut writer) = (Counted::new(given), Counted::new(taken));
    let ended = match mode {
        Mode::Lead => lead(alloc, &mut reader, &mut writer),
        Mode::LeadLeaking => lead_then(alloc, &mut reader, &mut writer, AtEnd::Leak),
        Mode::Follow => follow(alloc, &mut reader, &mut writer),
        Mode::FollowLeaking => follow_then(alloc, &mut reader, &mut writer, AtEnd::Leak),
        Mode::Shorten => shorten(alloc, &mut reader, &mut writer),
        Mode::Install => install(alloc, &mut reader, &mut writer),
    };
    (ended, reader, writer)
}

/// Checks the output and the result of the run over this text.
pub(crate) fn gives(
    rt: &impl Abort,
    alloc: Global,
    row: (Mode, &str),
    wanted: &str,
    end: Result<(), RunError>,
) {
    let (ended, _reader, writer) = run(alloc, row.0, row.1.as_bytes(), Vec::new(alloc));
    row_is(rt, row, ended, end);
    text_is(rt, row, writer.into_inner().as_slice(), wanted);
}

/// `lead` over memory. A caller can prove the clause from the contract of `lead`, if the input is known.
pub(crate) fn led(alloc: Global, input: &[u8]) -> Result<Vec<u8>, RunError>
    ensures { IfOk result (λ out. (refusals : List Bool) × (out.items ≡ output input.now refusals)) }
{
    let mut reader = Counted::new(input);
    let mut writer = Counted::new(Vec::new(alloc));
    lead(alloc, &mut reader, &mut writer)?;
    Ok(writer.into_inner())
}

/// `follow` over memory.
pub(crate) fn followed(alloc: Global, input: &[u8]) -> Result<Vec<u8>, RunError> {
    let mut reader = Counted::new(input);
    let mut writer = Counted::new(Vec::new(alloc));
    follow(alloc, &mut reader, &mut writer)?;
    Ok(writer.into_inner())
}

/// `shorten` over memory, with the clause that a caller can prove.
pub(crate) fn shortened(alloc: Global, input: &[u8]) -> Result<Vec<u8>, RunError>
    ensures { IfOk result (λ out. (routes : List Route) × IsLeastFor input.now routes × (out.items ≡ add_lines routes)) }
{
    let mut reader = Counted::new(input);
    let mut writer = Counted::new(Vec::new(alloc));
    shorten(alloc, &mut reader, &mut writer)?;
    Ok(writer.into_inner())
}
