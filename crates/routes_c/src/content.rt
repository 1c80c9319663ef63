//! The content of an open handle.
ghost use Rattle.std.specs.Prelude.{◌≡◌, Option, None, Some, MatchOption, refl};
ghost use Rattle.std.specs.Borrow.{sem};
ghost use Rattle.routes_c.specs.Contents.{LendsPart, follower_in, index_in, table_in};
ghost use Rattle.routes_c.specs.declared.content.Content.{Content};
ghost use Rattle.routes_c.specs.declared.content.Content.TheVariants as content;

use crate::follower_session::FollowerSession;
use crate::index_session::IndexSession;
use crate::session::Session;

/// The content of an open handle; the handle has it in a box.
#[derive(Drop)]
pub enum Content {
    /// A table.
    Table(Session),
    /// An index.
    Index(IndexSession),
    /// A follower.
    Follower(FollowerSession),
}

/// A kind of content.
pub(crate) trait Kind {
    /// The content as one of this kind, or `None` if it is of another kind.
    ghost part: { Content → Option Self };

    /// The content that is made of one of this kind.
    ghost whole: { Self → Content };

    /// Returns the content if it is of this kind.
    fn of(content: &mut Content) -> Option<&mut Self>
        ensures* lends { sem 𝓛 (LendsPart Self.row whole content.entry result) }
        ensures value { MatchOption result (part content.old ≡ None) (λ r. part content.old ≡ Some r.now) };

    ghost comes_back: { (s : Self) → part (whole s) ≡ Some s };
}

impl Kind for Session {
    ghost part = { table_in };

    ghost whole = { content.Table };

    ghost comes_back = { λ s. refl };

    fn of(content: &mut Content) -> Option<&mut Session> {
        match content {
            Content::Table(session) => Some(session),
            _ => None,
        }
    }
}

impl Kind for IndexSession {
    ghost part = { index_in };

    ghost whole = { content.Index };

    ghost comes_back = { λ s. refl };

    fn of(content: &mut Content) -> Option<&mut IndexSession> {
        match content {
            Content::Index(session) => Some(session),
            _ => None,
        }
    }
}

impl Kind for FollowerSession {
    ghost part = { follower_in };

    ghost whole = { content.Follower };

    ghost comes_back = { λ s. refl };

    fn of(content: &mut Content) -> Option<&mut FollowerSession> {
        match content {
            Content::Follower(session) => Some(session),
            _ => None,
        }
    }
}
