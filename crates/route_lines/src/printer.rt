//! The printed text of each line. Each `push_` function appends a word, for which there must be room.
ghost use Rattle.std.specs.Prelude.{◌≡◌, ◌+◌, ◌≤◌, ◌++◌, length, codes};
ghost use Rattle.arrayvec.specs.ArrayVec.{array_vec_len};
ghost use Rattle.ipnet.specs.IpNetText.{net_text, Reads};
ghost use Rattle.route_lines.specs.CommandText.{IsPrintableCommand, command_text, preference_text};
ghost use Rattle.route_lines.specs.Grammar.{IsPrinted};
ghost use Rattle.route_lines.specs.InnerPrinted.{AreWords, CommandWords, ReplyWords, UpdateWords};
ghost use Rattle.route_lines.specs.Texts.{IsCommand, IsPrintable, IsPrintableUpdate, IsReply, IsUpdate, hop_text, reply_text, update_text};
ghost use Rattle.route_lines.specs.Words.{IsHop};

use crate::command::Command;
use crate::fib_update::FibUpdate;
use crate::reply::Reply;
use arrayvec::ArrayVec;
use ipnet::IpNet;
use itoa::{Buffer, Integer};
use route_table::{DEFAULT_PREFERENCE, Hop};

impl Command {
    /// Returns the text of the command, with its line end. A preference of 100 is omitted. The text reads as this command. The network, if
    /// there is one, must have no host bits, and the limit must be 1 to 1000. Does not allocate.
    ///
    /// # Examples
    /// `text_is` and `row_is` compare their last two arguments:
    ///
    /// ```rust
    /// match Command::read(text.as_bytes()) {
    ///     Ok(command) => text_is(rt, text, command.print().as_slice(), expected),
    ///     Err(_) => row_is(rt, text, "", expected),
    /// }
    /// ```
    ///
    /// Values of `text` and `expected`:
    ///
    /// ```rust
    /// ("add 10.1.2.3/08 1", "add 10.0.0.0/8 1\n"),
    /// ("add 10.0.0.0/8 1 100", "add 10.0.0.0/8 1\n"),
    /// ("add 10.0.0.0/8 1 0", "add 10.0.0.0/8 1 0\n"),
    /// ```
    pub fn print(&self) -> ArrayVec<u8, 80>
        requires { IsPrintableCommand self.now }
        ensures { IsPrinted IsCommand command_text 65 self.now result.items }
    {
        let mut out = ArrayVec::new();
        self.print_to(&mut out);
        out
    }

    /// Replaces the contents of `out` with the result of `print`.
    pub fn print_to(&self, out: &mut ArrayVec<u8, 80>)
        requires { IsPrintableCommand self.now }
        ensures { IsPrinted IsCommand command_text 65 self.now out.new.items }
    {
        self.print_words(out);
        out.push(b'\n');
    }

    #[inline]
    fn print_words(&self, out: &mut ArrayVec<u8, 80>)
        ensures { AreWords command_text CommandWords 64 self.now out.new.items }
    {
        out.clear();
        match self {
            Command::Add { net, hop, pref } => {
                push_route(out, b"add ", net, *hop);
                push_preference(out, *pref);
            }
            Command::Del { net, hop } => push_route(out, b"del ", net, *hop),
            Command::Get { net } => push_net_after(out, b"get ", net),
            Command::Cover { net } => push_net_after(out, b"cover ", net),
            Command::List { net } => push_net_after(out, b"list ", net),
            Command::All { net } => push_net_after(out, b"all ", net),
            Command::PageFrom { net, limit } => push_numbered(out, b"from ", net, *limit),
            Command::PageAfter { net, limit } => push_numbered(out, b"after ", net, *limit),
            Command::Own { number } => {
                push_all(out, b"own ");
                push_number(out, *number);
            }
            Command::Count => push_all(out, b"count"),
            Command::Flat => push_all(out, b"flat"),
        }
    }
}

impl Reply {
    /// Returns the text of the line, with its line end; it reads as this line. The network, if there is one, must have no host bits. Does
    /// not allocate.
    ///
    /// # Examples
    /// ```rust
    /// assert_eq!(rt;
    ///     Reply::Close(Closing::Missing).print().as_slice(),
    ///     "none\n".as_bytes()
    /// );
    /// ```
    pub fn print(&self) -> ArrayVec<u8, 80>
        requires { IsPrintable self.now }
        ensures { IsPrinted IsReply reply_text 67 self.now result.items }
    {
        let mut out = ArrayVec::new();
        self.print_to(&mut out);
        out
    }

    /// Replaces the contents of `out`, which has room for 67 bytes, with the result of `print`.
    pub fn print_to<const N: usize>(&self, out: &mut ArrayVec<u8, N>)
        requires printable { IsPrintable self.now }
        requires room { 67 ≤ N }
        ensures { IsPrinted IsReply reply_text 67 self.now out.new.items }
    {
        self.print_words(out);
        out.push(b'\n');
    }

    #[inline]
    fn print_words<const N: usize>(&self, out: &mut ArrayVec<u8, N>)
        requires { 66 ≤ N }
        ensures { AreWords reply_text ReplyWords 66 self.now out.new.items }
    {
        out.clear();
        match self {
            Reply::Set { net, number } => push_numbered(out, b"set ", net, *number),
            Reply::Unset { net } => push_net_after(out, b"unset ", net),
            Reply::Route { net, hop, pref } => {
                push_route(out, b"route ", net, *hop);
                if let Some(pref) = pref {
                    push_all(out, b" ");
                    push_number(out, *pref);
                }
            }
            Reply::Flat { net, number } => push_numbered(out, b"flat ", net, *number),
            Reply::Own { net } => push_net_after(out, b"own ", net),
            Reply::Count { v4, v6 } => {
                push_all(out, b"count ");
                push_number(out, *v4);
                push_all(out, b" ");
                push_number(out, *v6);
            }
            Reply::Close(closing) => {
                let line = closing.line();
                push_all(out, &line[..line.len() - 1]);
            }
        }
    }
}

impl FibUpdate {
    /// Returns the text of the line, with its line end; it reads as this line. The network, if there is one, must have no host bits. Does
    /// not allocate.
    ///
    /// # Examples
    /// `text_is` and `row_is` compare their last two arguments:
    ///
    /// ```rust
    /// match FibUpdate::read(text.as_bytes()) {
    ///     Ok(update) => text_is(rt, text, update.print().as_slice(), expected),
    ///     Err(_) => row_is(rt, text, "", expected),
    /// }
    /// ```
    ///
    /// Values of `text` and `expected`:
    ///
    /// ```rust
    /// ("install 10.1.2.3/08 7", "install 10.0.0.0/8 7\n"),
    /// ("install 10.0.0.0/8 drop", "install 10.0.0.0/8 drop\n"),
    /// ("install 2001:DB8::1/32 0", "install 2001:db8::/32 0\n"),
    /// ```
    pub fn print(&self) -> ArrayVec<u8, 67>
        requires { IsPrintableUpdate self.now }
        ensures { IsPrinted IsUpdate update_text 63 self.now result.items }
    {
        let mut out = ArrayVec::new();
        self.print_to(&mut out);
        out
    }

    /// Replaces the contents of `out` with the result of `print`.
    pub fn print_to(&self, out: &mut ArrayVec<u8, 67>)
        requires { IsPrintableUpdate self.now }
        ensures { IsPrinted IsUpdate update_text 63 self.now out.new.items }
    {
        self.print_words(out);
        out.push(b'\n');
    }

    #[inline]
    fn print_words(&self, out: &mut ArrayVec<u8, 67>)
        ensures { AreWords update_text UpdateWords 62 self.now out.new.items }
    {
        out.clear();
        match self {
            FibUpdate::Install { net, hop } => push_route(out, b"install ", net, *hop),
            FibUpdate::Remove { net } => push_net_after(out, b"remove ", net),
            FibUpdate::Done => push_all(out, b"ok"),
        }
    }
}

fn push_all<const N: usize>(out: &mut ArrayVec<u8, N>, bytes: &[u8])
    requires { array_vec_len out.old + length bytes.now ≤ N }
    ensures bytes { out.new.items ≡ out.old.items ++ bytes.now }
    ensures len { array_vec_len out.new ≡ array_vec_len out.old + length bytes.now }
{
    let _ = out.try_extend_from_slice(bytes);
}

// Appends a word that ends with a space, and a network.
fn push_net_after<const N: usize>(out: &mut ArrayVec<u8, N>, word: &[u8], net: &IpNet)
    requires { array_vec_len out.old + length word.now + 43 ≤ N }
    ensures bytes { out.new.items ≡ out.old.items ++ word.now ++ net_text net.now }
    ensures len { array_vec_len out.new ≤ array_vec_len out.old + length word.now + 43 }
    ensures reads { Reads (net_text net.now) net.now }
{
    push_all(out, word);
    net.push_text(out);
}

// Appends a word that ends with a space, a network, a space and a number.
fn push_numbered<I: Integer, const N: usize>(
    out: &mut ArrayVec<u8, N>,
    word: &[u8],
    net: &IpNet,
    number: I,
)
    requires { array_vec_len out.old + length word.now + 44 + I.MAX_STR_LEN ≤ N }
    ensures bytes { out.new.items ≡ out.old.items ++ word.now ++ net_text net.now ++ codes " " ++ I.text number }
    ensures len { array_vec_len out.new ≤ array_vec_len out.old + length word.now + 44 + I.MAX_STR_LEN }
    ensures reads { Reads (net_text net.now) net.now }
{
    push_net_after(out, word, net);
    push_all(out, b" ");
    push_number(out, number);
}

// Appends a word that ends with a space, a network, a space and a hop.
fn push_route<const N: usize>(out: &mut ArrayVec<u8, N>, word: &[u8], net: &IpNet, hop: Hop)
    requires { array_vec_len out.old + length word.now + 54 ≤ N }
    ensures bytes { out.new.items ≡ out.old.items ++ word.now ++ net_text net.now ++ codes " " ++ hop_text hop }
    ensures len { array_vec_len out.new ≤ array_vec_len out.old + length word.now + 54 }
    ensures net_reads { Reads (net_text net.now) net.now }
    ensures hop_reads { IsHop (hop_text hop) hop }
{
    push_net_after(out, word, net);
    push_all(out, b" ");
    match hop {
        Hop::Number(n) => push_number(out, n),
        Hop::Drop => push_all(out, b"drop"),
    }
}

// Appends a number in decimal.
fn push_number<I: Integer, const N: usize>(out: &mut ArrayVec<u8, N>, n: I)
    requires { array_vec_len out.old + I.MAX_STR_LEN ≤ N }
    ensures bytes { out.new.items ≡ out.old.items ++ I.text n }
    ensures len { array_vec_len out.new ≤ array_vec_len out.old + I.MAX_STR_LEN }
{
    let mut buffer = Buffer::new();
    push_all(out, buffer.format(n).as_bytes());
}

// Appends a space and the preference, unless it is the default preference.
fn push_preference<const N: usize>(out: &mut ArrayVec<u8, N>, pref: u16)
    requires { array_vec_len out.old + 6 ≤ N }
    ensures bytes { out.new.items ≡ out.old.items ++ preference_text pref }
    ensures len { array_vec_len out.new ≤ array_vec_len out.old + 6 }
    ensures fits { pref ≤ 0xffff }
{
    if pref != DEFAULT_PREFERENCE {
        push_all(out, b" ");
        push_number(out, pref);
    }
}
