//! A leader over bytes in memory.
#![tactic(auto)]

ghost use Rattle.std.specs.Prelude.{◌≡◌, Bool, IfOk, List};
ghost use Rattle.route_feed.specs.Output.{output};

use route_feed::{Counted, RunError, lead};
use std::alloc::Global;

/// The replies to these command lines: a function of them, and of which requests for memory are refused.
///
/// # Errors
/// Those of `lead`; this contract says nothing of them.
pub fn led(alloc: Global, input: &[u8]) -> Result<Vec<u8>, RunError>
    ensures { IfOk result (λ out. (refusals : List Bool) × (out.items ≡ output input.now refusals)) }
{
    let mut reader = Counted::new(input);
    let mut writer = Counted::new(Vec::new(alloc));
    lead(alloc, &mut reader, &mut writer)?;
    Ok(writer.into_inner())
}
