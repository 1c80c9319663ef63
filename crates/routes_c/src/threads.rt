//! The content of an open handle may be sent to another thread, and threads may read one index at once.
ghost use Rattle.std.specs.Prelude.{◌≡◌};
ghost use denote.Param.Send.{IsSend, IsSync};
ghost use Rattle.hop_index.specs.contracts.index.HopIndex.{the_row as index_row};
ghost use Rattle.routes_c.specs.contracts.follower_session.FollowerSession.{the_row as follower_row};
ghost use Rattle.routes_c.specs.contracts.index_session.IndexSession.{the_row as index_session_row};
ghost use Rattle.routes_c.specs.contracts.session.Session.{the_row as session_row};

use crate::follower_session::FollowerSession;
use crate::index_session::IndexSession;
use crate::session::Session;
use hop_index::HopIndex;

/// Returns its argument, which may be sent to another thread.
fn sent<T: Send>(value: Box<T>) -> Box<T>
    ensures same { result ≡ value }
    ensures sends { IsSend T.row }
{
    value
}

/// Returns its argument, which threads may read at once.
fn shared<T: Sync>(value: &T) -> &T
    ensures same { result.now ≡ value.now }
    ensures shares { IsSync T.row }
{
    value
}

/// The content of an open table may be sent, in its box.
pub fn table(session: Box<Session>) -> Box<Session>
    ensures same { result ≡ session }
    ensures sends { IsSend session_row }
{
    sent(session)
}

/// The content of an open index may be sent, in its box, also if other handles share the index.
pub fn index(session: Box<IndexSession>) -> Box<IndexSession>
    ensures same { result ≡ session }
    ensures sends { IsSend index_session_row }
{
    sent(session)
}

/// Threads may read an index at once, as those do whose handles share it.
pub fn hops(index: &HopIndex) -> &HopIndex
    ensures same { result.now ≡ index.now }
    ensures shares { IsSync index_row }
{
    shared(index)
}

/// The content of an open follower may be sent, in its box.
pub fn follower(session: Box<FollowerSession>) -> Box<FollowerSession>
    ensures same { result ≡ session }
    ensures sends { IsSend follower_row }
{
    sent(session)
}
