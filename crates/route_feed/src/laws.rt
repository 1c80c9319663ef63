//! Theorems about reply streams: public functions without a body, whose contracts are the theorems.
ghost use Rattle.std.specs.Prelude.{◌≡◌, ◌↔◌, IsTrue};
ghost use Rattle.route_feed.specs.declared.follower.FollowError.{FollowError as AnyFollowError};
ghost use Rattle.route_feed.specs.Laws.{AllAreAnswered, BeginningsAgree, BeginningsAreLines, BeginningsAreReplies, ChangesHaveOneHop, CommandsAreInRange, FlatListsAgree, LinesAgree, LinesKeepHops, LinesRebuild, LinesStayLeast, NoHopsNoLines, OutputIsFollowed, RestartedAgree, SameFlatBytes, ShortenedAgree, SplitIsLines, ToldIsTable};

use crate::follower::FollowError;

/// Take any of the first reply lines of a leader, as values, and make the changes of the replies among them that end with `ok`.
///
/// - `hops`: each address has the hop of the leader's table after as many commands as there are complete replies.
/// - `commands`: the commands that bytes spell are in range, as `hops` asks of commands.
/// - `written`: the reply lines in a beginning of the output, cut at any byte, have the changes and closing lines of some first ones.
pub fn reply_lines()
    ensures hops { LinesAgree }
    ensures commands { CommandsAreInRange }
    ensures written { BeginningsAreLines }
{}

/// The meaning of some definitions.
///
/// - `changes`: the lines of a change of one network's routes are those of its maximal blocks, each with the hop of every address of the
///   block.
/// - `split`: the lines of bytes and the rest are the only pieces without a line end that make them.
pub fn meanings()
    ensures changes { ChangesHaveOneHop }
    ensures split { SplitIsLines }
{}

/// Take any beginning of a leader's output, cut at any byte, and make the changes of the replies in it that end with `ok`.
///
/// - `hops`: each address has the hop of the leader's table after as many commands as the beginning has complete replies.
/// - `flat`: so the flat list is that of the leader's table, too.
/// - `replies`: each line of the beginning is a reply line, so a follower never fails with `Line`.
/// - `answered`: the whole output has a closing line for each line of the input.
/// - `whole`: a follower of the whole output prints the flat list of the leader's last table.
/// - `restarted`: a leader that is given `add NET HOP` for each line of a follower's flat list has these hops, if memory doesn't run out.
/// - `table`: the tables of a leader are tables of networks with their routes.
pub fn followed()
    ensures hops { BeginningsAgree }
    ensures flat { FlatListsAgree }
    ensures replies { BeginningsAreReplies }
    ensures answered { AllAreAnswered }
    ensures whole { OutputIsFollowed }
    ensures restarted { RestartedAgree }
    ensures table { ToldIsTable }
{}

/// Two tables print the same bytes for `flat` exactly if each address has the same hop in both.
#[tactic(auto, using(crate::proofs::SameBytes::same_bytes))]
pub fn same_flat_bytes()
    ensures { SameFlatBytes }
{}

/// Take any beginning of a leader's output, and the lines of a least table that `shorten` writes for it.
///
/// - `rebuild`: a leader that is given the lines of a table has these networks and no others, with one route each.
/// - `hops`: so it has, at every address, the hop that the first leader had, if memory doesn't run out.
/// - `nothing`: if no address has a hop, there are no lines.
/// - `kept`: the lines of any table make a table with the same hops.
/// - `least`: the lines of a least table, such as the result of `RouteTable::least`, make a least table.
pub fn shortened()
    ensures rebuild { LinesRebuild }
    ensures hops { ShortenedAgree }
    ensures nothing { NoHopsNoLines }
    ensures kept { LinesKeepHops }
    ensures least { LinesStayLeast }
{}

/// `==` holds exactly for equal errors. A clone of an error equals it, and cloning never fails.
pub fn errors()
    ensures same { (a b : AnyFollowError) → IsTrue (⟦<FollowError as PartialEq>⟧.eq a b) ↔ (a ≡ b) }
    ensures clone { (a b : AnyFollowError) → ⟦<FollowError as Clone>⟧.is_clone a b → b ≡ a }
    ensures made { (a : AnyFollowError) → ⟦<FollowError as Clone>⟧.is_infallible a }
{}
