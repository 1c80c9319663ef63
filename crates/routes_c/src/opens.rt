//! Opening and closing handles.
ghost use Rattle.std.specs.Prelude.{◌≡◌, Err, ⊤};
ghost use Rattle.routes_c.specs.Handles.{IsClosed, IsHandle, KeepsContent, content_of, follower_of, index_session_of, session_of};
ghost use Rattle.routes_c.specs.Opens.{IsNewFollower, IsNewTable, Opens, OpensIndex, OpensIndexOf, SharesIndex};

use crate::content::Content;
use crate::follower_session::FollowerSession;
use crate::handle::Handle;
use crate::index_session::IndexSession;
use crate::session::Session;
use route_feed::Follower;
use route_table::RouteTable;
use std::alloc::Global;

/// Opens a closed handle as a table without networks.
///
/// Returns 0. Fails with 2 if an allocation fails, and 4 if the handle is open. Then it is unchanged.
#[unsafe(no_mangle)]
pub extern "C" fn routes_open(alloc: Global, handle: &mut Handle) -> u32
    requires { IsHandle handle.old }
    ensures handle { IsHandle handle.new }
    ensures opens { Opens (content_of handle.old) (content_of handle.new) (λ k. k ≡ 2) IsNewTable result }
{
    if handle.is_open {
        return 4;
    }
    let Ok(table) = RouteTable::new(alloc) else {
        return 2;
    };
    handle.open(alloc, Content::Table(Session::new(alloc, table)))
}

/// Closes a handle, and frees its memory. A closed handle stays closed.
#[unsafe(no_mangle)]
pub extern "C" fn routes_close(alloc: Global, handle: &mut Handle)
    requires { IsHandle handle.old }
    ensures handle { IsHandle handle.new }
    ensures closed { IsClosed handle.new }
{
    handle.close(alloc);
}

/// Opens a closed handle as a follower that has read no line: no address has a hop.
///
/// Returns 0. Fails with 2 if an allocation fails, and 4 if the handle is open. Then it is unchanged.
#[unsafe(no_mangle)]
pub extern "C" fn routes_follower_open(alloc: Global, follower: &mut Handle) -> u32
    requires { IsHandle follower.old }
    ensures handle { IsHandle follower.new }
    ensures opens { Opens (content_of follower.old) (content_of follower.new) (λ k. k ≡ 2) IsNewFollower result }
{
    if follower.is_open {
        return 4;
    }
    let Ok(made) = Follower::new(alloc) else {
        return 2;
    };
    follower.open(alloc, Content::Follower(FollowerSession::new(alloc, made)))
}

/// Closes a handle, as `routes_close` does.
#[unsafe(no_mangle)]
pub extern "C" fn routes_follower_close(alloc: Global, follower: &mut Handle)
    requires { IsHandle follower.old }
    ensures handle { IsHandle follower.new }
    ensures closed { IsClosed follower.new }
{
    follower.close(alloc);
}

/// Opens a closed handle as an index of the hops that an open table has now. It is a snapshot: later changes don't reach it.
///
/// Returns 0. Fails with 4 if the handle is open, and else with 3 if the table is closed. Fails with 2 if an allocation fails or the index
/// would be too large. Then the handle is unchanged.
#[unsafe(no_mangle)]
pub extern "C" fn routes_index_open(alloc: Global, index: &mut Handle, table: &mut Handle) -> u32
    requires index { IsHandle index.old }
    requires table { IsHandle table.old }

    // Both stay handles, and the second one keeps its content.
    ensures index { IsHandle index.new }
    ensures table { KeepsContent session_of table.old table.new ⊤ (λ s. ⊤) }

    // The status, and the content of the index.
    ensures opens { OpensIndex (content_of index.old) (content_of index.new) (session_of table.old) result }
{
    if index.is_open {
        return 4;
    }
    match table.on(Err(3), |session: &mut Session| session.index(alloc)) {
        Ok(made) => index.open(alloc, Content::Index(made)),
        Err(code) => code,
    }
}

/// Opens a closed handle as an index of the hops that an open follower has now. It is a snapshot: later lines don't reach it.
///
/// Returns 0. Fails with 4 if the index is open, else with 3 if the follower is closed, and else with 8 after a fault of the follower.
/// Fails with 2 if an allocation fails or the index would be too large. Then the index is unchanged.
#[unsafe(no_mangle)]
pub extern "C" fn routes_follower_index(
    alloc: Global,
    index: &mut Handle,
    follower: &mut Handle,
) -> u32
    requires index { IsHandle index.old }
    requires follower { IsHandle follower.old }

    // Both stay handles, and the second one keeps its content.
    ensures index { IsHandle index.new }
    ensures follower { KeepsContent follower_of follower.old follower.new ⊤ (λ s. ⊤) }

    // The status, and the content of the index.
    ensures opens { OpensIndexOf (content_of index.old) (content_of index.new) (follower_of follower.old) result }
{
    if index.is_open {
        return 4;
    }
    match follower.on(Err(3), |session: &mut FollowerSession| session.index(alloc)) {
        Ok(made) => index.open(alloc, Content::Index(made)),
        Err(code) => code,
    }
}

/// Opens a closed handle as another handle of an open index. Copies nothing of the index. Each handle is used and closed by itself, and
/// the last close frees the index.
///
/// Returns 0. Fails with 2 if an allocation fails or too many handles share the index, 3 if `from` is closed, and 4 if the handle is
/// open. Then it is unchanged.
#[unsafe(no_mangle)]
pub extern "C" fn routes_index_share(alloc: Global, index: &mut Handle, from: &mut Handle) -> u32
    requires index { IsHandle index.old }
    requires from { IsHandle from.old }

    // Both stay handles, and the second one keeps its content.
    ensures index { IsHandle index.new }
    ensures from { KeepsContent index_session_of from.old from.new ⊤ (λ s. ⊤) }

    // The status, and the content of the index.
    ensures opens { SharesIndex (content_of index.old) (content_of index.new) (index_session_of from.old) result }
{
    if index.is_open {
        return 4;
    }
    match from.on(Err(3), |session: &mut IndexSession| session.share()) {
        Ok(made) => index.open(alloc, Content::Index(made)),
        Err(code) => code,
    }
}

/// Closes a handle, as `routes_close` does.
#[unsafe(no_mangle)]
pub extern "C" fn routes_index_close(alloc: Global, index: &mut Handle)
    requires { IsHandle index.old }
    ensures handle { IsHandle index.new }
    ensures closed { IsClosed index.new }
{
    index.close(alloc);
}
