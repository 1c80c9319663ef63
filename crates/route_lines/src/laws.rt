//! Theorems about lines: public functions without a body, whose contracts are the theorems.
ghost use Rattle.std.specs.Prelude.{◌≡◌, ◌↔◌, ℕ, List, [], ◌∷◌, ◌++◌, Some, flat_map};
ghost use Rattle.route_lines.specs.Bytes.{lines, rest};
ghost use Rattle.route_lines.specs.CommandText.{IsPrintableCommand, command_text};
ghost use Rattle.route_lines.specs.Earlier.{IsEarlierReply};
ghost use Rattle.route_lines.specs.Grammar.{Finds, IsGrammar, IsPlain, IsTextOf};
ghost use Rattle.ipnet.specs.IpNets.{block, network_at};
ghost use Rattle.ipnet.specs.declared.ip_net.IpNet.{IpNet};
ghost use Rattle.route_choices.specs.declared.hop.Hop.{Hop};
ghost use Rattle.route_table.specs.Operations.{network_of};
ghost use Rattle.route_table.specs.declared.between.Operation.{Operation};
ghost use Rattle.route_lines.specs.Spelled.{command_of, note_of, reply_of, update_of};
ghost use Rattle.route_lines.specs.Texts.{IsCommand, IsNote, IsPrintable, IsPrintableUpdate, IsReply, IsUpdate, reply_text, update_for, update_text};
ghost use Rattle.route_lines.specs.declared.command.Command.{Command};
ghost use Rattle.route_lines.specs.declared.fib_input.FibInput.{FibInput};
ghost use Rattle.route_lines.specs.declared.fib_input.FibInput.TheVariants as Notes;
ghost use Rattle.route_lines.specs.declared.reply.Reply.{Reply};
ghost use Rattle.route_lines.specs.declared.fib_update.FibUpdate.{FibUpdate};
ghost use Rattle.route_lines.specs.Lines.{kept_of, answers, fed_all, rest_in, rest_of, lines_in};

use crate::NotALine;
use crate::command::Command;
use crate::cutter::Rest;
use crate::fib_input::FibInput;
use crate::fib_update::FibUpdate;
use crate::reply::{Closing, Reply};

/// A new cutter that is fed any bytes returns their lines in order: `Text` for each line of at most 80 bytes, and `TooLong` for any
/// other. `rest` returns whether there are bytes after the last line end. So the results depend only on the bytes, not on how they were
/// split into reads.
pub fn cutting()
    ensures answers { (bytes : List ℕ) → answers (kept_of []) bytes ≡ lines_in bytes }
    ensures kept { (bytes : List ℕ) → fed_all (kept_of []) bytes ≡ kept_of (rest bytes) }
    ensures rest { (bytes : List ℕ) → rest_in (fed_all (kept_of []) bytes) ≡ rest_of (rest bytes) }
{}

/// All lines, each with its line end, followed by the rest, are the bytes.
#[tactic(auto, using(crate::proofs::Cutting::pieces_make))]
pub fn pieces_make_bytes()
    ensures { (bytes : List ℕ) → bytes ≡ flat_map (λ piece. piece ++ 10 ∷ []) (lines bytes) ++ rest bytes }
{}

/// A text spells at most one command, and then has at most 72 bytes and no line end. Each command that can be read can be printed. The
/// function `command_of` finds the command that a text spells.
pub fn commands()
    ensures grammar { IsGrammar IsCommand 72 }
    ensures printable { (text : List ℕ) (a : Command) → IsCommand text a → IsPrintableCommand a }
    ensures found { Finds IsCommand command_of }
{}

/// If a text spells a command, the printed text of this command spells it too, and spells no other.
pub fn printed_commands()
    ensures { IsTextOf IsCommand command_text }
{}

/// A text spells at most one reply line, and then has at most 74 bytes and no line end. Each reply line that can be read can be printed.
/// The function `reply_of` finds the reply line that a text spells.
pub fn replies()
    ensures grammar { IsGrammar IsReply 74 }
    ensures printable { (text : List ℕ) (a : Reply) → IsReply text a → IsPrintable a }
    ensures found { Finds IsReply reply_of }
{}

/// If a text spells a reply line, the printed text of this line spells it too, and spells no other.
pub fn printed_replies()
    ensures { IsTextOf IsReply reply_text }
{}

/// Each reply line of a leader without preferences is a reply line, with the same network and hop. A `route` line then has no
/// preference.
pub fn earlier()
    ensures { (text : List ℕ) (a : Reply) → IsEarlierReply text a → IsReply text a }
{}

/// A text spells at most one line of an installer's input, and then has at most 74 bytes and no line end. The network of a `have` has no
/// host bits. The function `note_of` finds the line that a text spells, and finds a reply line exactly if `reply_of` finds the
/// same one.
pub fn notes()
    ensures grammar { IsGrammar IsNote 74 }
    ensures cut { (text : List ℕ) (net : IpNet) (hop : Hop) → IsNote text (Notes.Have net hop) → net ≡ network_at (block net) }
    ensures found { Finds IsNote note_of }
    ensures replies { (text : List ℕ) (r : Reply) → (note_of text ≡ Some (Notes.Reply r)) ↔ (reply_of text ≡ Some r) }
    ensures apart { (text : List ℕ) (a : FibInput) (r : Reply) → IsNote text a → IsReply text r → a ≡ Notes.Reply r }
{}

/// A text spells at most one line of an installer's output, and then has at most 70 bytes and no line end. Each such line that can be
/// read can be printed. An operation can be printed exactly if its network has no host bits. The function `update_of` finds the
/// line that a text spells.
pub fn updates()
    ensures grammar { IsGrammar IsUpdate 70 }
    ensures printable { (text : List ℕ) (a : FibUpdate) → IsUpdate text a → IsPrintableUpdate a }
    ensures operations { (o : Operation) → IsPrintableUpdate (update_for o) ↔ (network_of o ≡ network_at (block (network_of o))) }
    ensures found { Finds IsUpdate update_of }
{}

/// If a text spells a line of an installer's output, the printed text of this line spells it too, and spells no other.
pub fn printed_updates()
    ensures { IsTextOf IsUpdate update_text }
{}

/// `==` holds exactly for equal commands, and likewise for reply lines, notes, updates, closings, rests and errors. A clone equals the
/// original, and cloning never fails.
pub fn equality()
    ensures commands { IsPlain ⟦<Command as PartialEq>⟧.eq ⟦<Command as Clone>⟧.is_clone ⟦<Command as Clone>⟧.is_infallible }
    ensures replies { IsPlain ⟦<Reply as PartialEq>⟧.eq ⟦<Reply as Clone>⟧.is_clone ⟦<Reply as Clone>⟧.is_infallible }
    ensures notes { IsPlain ⟦<FibInput as PartialEq>⟧.eq ⟦<FibInput as Clone>⟧.is_clone ⟦<FibInput as Clone>⟧.is_infallible }
    ensures updates { IsPlain ⟦<FibUpdate as PartialEq>⟧.eq ⟦<FibUpdate as Clone>⟧.is_clone ⟦<FibUpdate as Clone>⟧.is_infallible }
    ensures closings { IsPlain ⟦<Closing as PartialEq>⟧.eq ⟦<Closing as Clone>⟧.is_clone ⟦<Closing as Clone>⟧.is_infallible }
    ensures rests { IsPlain ⟦<Rest as PartialEq>⟧.eq ⟦<Rest as Clone>⟧.is_clone ⟦<Rest as Clone>⟧.is_infallible }
    ensures errors { IsPlain ⟦<NotALine as PartialEq>⟧.eq ⟦<NotALine as Clone>⟧.is_clone ⟦<NotALine as Clone>⟧.is_infallible }
{}
