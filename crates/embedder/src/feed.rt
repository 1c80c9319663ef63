//! A leader, a follower and an installer over memory.
ghost use Rattle.std.specs.Prelude.{◌≡◌, ◌⊎◌, ◌++◌, ◌∷◌, [], ℕ, Bool, List, IfOk, codes, map, take};
ghost use Rattle.ipnet_addr.specs.Addresses.{Address, IsAddress};
ghost use Rattle.route_installer.specs.Installing.{AreNotes, Noted, begin, events};
ghost use Rattle.route_installer.specs.Laws.{HasSync, carried_out as table_of_lines, updates_in};
ghost use Rattle.route_feed.specs.Laws.{table_told};
ghost use Rattle.route_feed.specs.Output.{output};
ghost use Rattle.route_feed.specs.Replies.{printed};
ghost use Rattle.route_feed.specs.Steps.{flat_line};
ghost use Rattle.route_feed.specs.Streams.{committed, painted_hop, replies_in};
ghost use Rattle.route_lines.specs.Bytes.{lines};
ghost use Rattle.route_lines.specs.declared.reply.Closing.TheVariants.{Done};
ghost use Rattle.route_lines.specs.declared.reply.Reply.TheVariants.{Close};
ghost use Rattle.route_laws.specs.Flats.{flat_of};
ghost use Rattle.route_laws.specs.Networks.{routes_of};
ghost use Rattle.route_laws.specs.Runs.{haves};
ghost use Rattle.route_laws.specs.Tables.{hop_at};

use route_feed::laws::{followed, reply_lines};
use route_feed::{Counted, RunError, follow, lead};
use route_installer::install;
use route_installer::laws::carried_out;
use route_table::laws::one_route;
use std::alloc::Global;

/// Returns the output of a leader, and the output of a follower of a beginning of it: the flat list of the leader's table there.
///
/// # Errors
/// Those of `lead` and of `follow`; this contract says nothing of them.
pub fn mirrored(alloc: Global, input: &[u8], cut: usize) -> Result<(Vec<u8>, Vec<u8>), RunError>
    ensures { IfOk result (λ p. (refusals : List Bool) × (p.0.items ≡ output input.now refusals)
        × (p.1.items ≡ printed (map flat_line (flat_of (hop_at (routes_of (table_told input.now refusals (take cut p.0.items))))) ++ Close Done ∷ []))) }
{
    followed();
    let mut reader = Counted::new(input);
    let mut writer = Counted::new(Vec::new(alloc));
    lead(alloc, &mut reader, &mut writer)?;
    let told = writer.into_inner();
    let front = &told[..cut.min(told.len())];
    let mut tail = Counted::new(front);
    let mut out = Counted::new(Vec::new(alloc));
    follow(alloc, &mut tail, &mut out)?;
    Ok((told, out.into_inner()))
}

/// The two chapters of the main theorem together. Any first reply lines of a leader, as values, give each address its hop. The whole
/// lines of a log, cut at any byte, have the changes of such lines.
pub fn cut_anywhere()
    ensures { (bytes front back : List ℕ) (refusals : List Bool) → output bytes refusals ≡ front ++ back
        → (x : Address) → IsAddress x → painted_hop (committed (replies_in front)) x ≡ hop_at (routes_of (table_told bytes refusals front)) x }
{
    reply_lines();
}

/// Returns the output of an installer for a log. Suppose that the log has a `sync`, and that its reply lines are those of a beginning of
/// a leader's output. Carry out the installer's output on the routes of the `have` lines. Then each address has the hop of the leader's
/// table there.
///
/// # Errors
/// Those of `install`; this contract says nothing of them.
pub fn installed(alloc: Global, log: &[u8]) -> Result<Vec<u8>, RunError>
    ensures { IfOk result (λ out. (notes : List Noted) × AreNotes (lines log.now) notes × ((bytes front back : List ℕ) (refusals : List Bool)
        → output bytes refusals ≡ front ++ back → replies_in log.now ≡ replies_in front → HasSync notes → (x : Address) → IsAddress x
        → hop_at (table_of_lines (haves (events begin notes)) (updates_in out.items)) x ≡ hop_at (routes_of (table_told bytes refusals front)) x)) }
{
    carried_out();
    let mut reader = Counted::new(log);
    let mut writer = Counted::new(Vec::new(alloc));
    install(alloc, &mut reader, &mut writer)?;
    Ok(writer.into_inner())
}

/// A whole session, byte for byte; the `add` may be refused for want of memory.
///
/// # Errors
/// Those of `lead`; this contract says nothing of them.
pub fn session(alloc: Global) -> Result<Vec<u8>, RunError>
    ensures { IfOk result (λ out.
        (out.items ≡ codes "set 10.0.0.0/8 1\nok\nflat 10.0.0.0/8 1\nok\n") ⊎ (out.items ≡ codes "refused\nok\n")) }
{
    one_route();
    let mut reader = Counted::new(b"add 10.0.0.0/8 1\nflat\n".as_slice());
    let mut writer = Counted::new(Vec::new(alloc));
    lead(alloc, &mut reader, &mut writer)?;
    Ok(writer.into_inner())
}
