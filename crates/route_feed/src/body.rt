//! The parts of the output: the lines of a reply, and operations.
ghost use Rattle.std.specs.Prelude.{◌≡◌, ⊤, List, map, take, All, IfSome, option_to_list};
ghost use Rattle.ipnet.specs.IpNets.{block, family, network_at, parts};
ghost use Rattle.ipnet_blocks.specs.Networks.{IsTruncated};
ghost use Rattle.route_feed.specs.InnerReplies.{GivesLine, choice_line, own_line};
ghost use Rattle.route_feed.specs.Steps.{change_line, flat_line, route_line};
ghost use Rattle.route_lines.specs.Texts.{IsPrintable};
ghost use Rattle.route_lines.specs.declared.reply.Reply.{Reply};

use ipnet::IpNet;
use route_lines::Reply;
use route_table::{All, Between, Flat, Governed, Operation, Routes};

/// An iterator over the lines of a reply, without its closing line.
pub(crate) trait Body: Drop {
    /// The lines that are left.
    ghost lines: { Self → List Reply };

    /// Whether the lines can be printed.
    ghost can_give: { Self → Type 0 };

    /// Returns the next line.
    fn next_line(&mut self) -> Option<Reply>
        requires { can_give self.old }
        ensures line { GivesLine (lines self.old) result (lines self.new) }
        ensures others { can_give self.new };
}

/// At most one line.
impl Body for Option<Reply> {
    ghost lines = { option_to_list };

    ghost can_give = { λ line. IfSome line IsPrintable };

    fn next_line(&mut self) -> Option<Reply> {
        self.take()
    }
}

/// The lines of routes.
impl Body for Routes<'_> {
    ghost lines = { map route_line };

    ghost can_give = { λ routes. ⊤ };

    fn next_line(&mut self) -> Option<Reply> {
        let (net, hop, pref) = self.next()?;
        let pref = Some(pref);
        Some(Reply::Route { net, hop, pref })
    }
}

/// The lines of the first routes, at most `limit` of them.
#[derive(Drop)]
pub(crate) struct PageLines<'a> {
    pub routes: Routes<'a>,
    pub limit: u16,
}

impl Body for PageLines<'_> {
    ghost lines = { λ page. map route_line (take page.limit page.routes) };

    ghost can_give = { λ page. ⊤ };

    fn next_line(&mut self) -> Option<Reply> {
        self.limit = self.limit.checked_sub(1)?;
        let (net, hop, pref) = self.routes.next()?;
        let pref = Some(pref);
        Some(Reply::Route { net, hop, pref })
    }
}

/// The lines of the routes of one network, which has no host bits.
#[derive(Drop)]
pub(crate) struct ChoiceLines<'a> {
    pub net: IpNet,
    pub choices: All<'a>,
}

impl Body for ChoiceLines<'_> {
    ghost lines = { λ body. map (choice_line (block body.net)) body.choices };

    ghost can_give = { λ body. body.net ≡ network_at (block body.net) };

    fn next_line(&mut self) -> Option<Reply> {
        let net = self.net;
        let (hop, pref) = self.choices.next()?;
        let pref = Some(pref);
        Some(Reply::Route { net, hop, pref })
    }
}

/// The lines of networks that have a hop; they have no host bits.
impl Body for &[IpNet] {
    ghost lines = { λ nets. map (λ n. own_line (block n)) nets.now };

    ghost can_give = { λ nets. All (λ n. IsTruncated (family n) (parts n)) nets.now };

    fn next_line(&mut self) -> Option<Reply> {
        let (net, others) = self.split_first()?;
        *self = others;
        Some(Reply::Own { net: *net })
    }
}

/// The line of a changed block, which has no host bits, with its new hop.
pub(crate) fn change_line(net: IpNet, hop: Option<u32>) -> Reply
    ensures value { net ≡ network_at (block net) → result ≡ change_line hop (block net) }
    ensures printable { net ≡ network_at (block net) → IsPrintable result }
{
    match hop {
        Some(number) => Reply::Set { net, number },
        None => Reply::Unset { net },
    }
}

/// The lines of the changed blocks, and their new hop.
#[derive(Drop)]
pub(crate) struct ChangeLines<'a> {
    pub blocks: Governed<'a>,
    pub hop: Option<u32>,
}

impl Body for ChangeLines<'_> {
    ghost lines = { λ change. map (change_line change.hop) change.blocks };

    ghost can_give = { λ change. ⊤ };

    fn next_line(&mut self) -> Option<Reply> {
        let net = self.blocks.next()?;
        Some(change_line(net, self.hop))
    }
}

/// The lines of a flat list.
impl Body for Flat<'_> {
    ghost lines = { map flat_line };

    ghost can_give = { λ pieces. ⊤ };

    fn next_line(&mut self) -> Option<Reply> {
        let (net, number) = self.next()?;
        Some(Reply::Flat { net, number })
    }
}
