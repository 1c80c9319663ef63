//! Networks as text. Reading follows the grammar of the Rust crate ipnet 2.12.2; each network is printed in one way.
ghost use Rattle.std.specs.Prelude.{◌≡◌, ℕ, ◌≤◌, ◌+◌, ◌++◌, List, Some, length};
ghost use Rattle.std.specs.Fmt.{DisplaysOnOk, DisplaysStyledOnOk};
ghost use Rattle.std.specs.Net.Grammar.{Parses};
ghost use Rattle.arrayvec.specs.ArrayVec.{array_vec_len};
ghost use Rattle.ipnet_blocks.specs.Networks.{Network};
ghost use Rattle.ipnet.specs.IpNetText.{Reads, net_text};

use crate::ip_net::IpNet;
use crate::networks::{Ipv4Net, Ipv6Net, Net};
use arrayvec::ArrayVec;
use ipnet_addr::number::AddressInt;
use std::str::FromStr;
use std::{fmt, str};
use thiserror::Error;

/// The text, bytes or JSON value that was read is no network.
///
/// # Examples
/// `shows` checks the displayed text:
///
/// ```rust
/// let Err(error) = Ipv4Net::parse_ascii(b"10.0.0.0") else {
///     panic!(&rt; "read")
/// };
/// shows(&rt, rt.alloc(), &error, "invalid IP address syntax");
/// ```
#[derive(Clone, Debug, PartialEq, Eq, Drop, Error)]
#[error("invalid IP address syntax")]
pub struct AddrParseError(pub(crate) ());

/// How networks of a family are read and printed.
pub trait FamilyText: AddressInt {
    /// The printed text of a network.
    ghost text: { Network → List ℕ };

    /// Whether the text spells this network, with its host bits.
    ghost reads: { List ℕ → Network → Type 0 };

    /// The most bytes that a printed text has.
    ghost longest: { ℕ };

    /// Returns the printed text.
    fn to_text(net: &Net<Self>) -> ArrayVec<u8, 43>
        ensures text { result.items ≡ text net.now }
        ensures reads { reads result.items net.now }
        ensures len { length result.items ≤ longest };

    /// Reads the network that these bytes spell.
    ///
    /// # Errors
    /// - `AddrParseError`: exactly if these bytes spell no network.
    fn parse_ascii(bytes: &[u8]) -> Result<Net<Self>, AddrParseError>
        ensures { Parses reads bytes.now result };
}

impl<N: FamilyText> Net<N> {
    /// Returns the text that `Display` writes, at most 18 bytes for IPv4 and 43 for IPv6. Does not allocate.
    pub fn to_text(&self) -> ArrayVec<u8, 43>
        ensures text { result.items ≡ N.text self.now }
        ensures reads { N.reads result.items self.now }
        ensures len { length result.items ≤ N.longest }
    {
        <N as FamilyText>::to_text(self)
    }

    /// Reads the network that these bytes spell, as `from_str` does. Does not allocate.
    ///
    /// # Errors
    /// - `AddrParseError`: exactly if these bytes spell no network.
    pub fn parse_ascii(text: &[u8]) -> Result<Net<N>, AddrParseError>
        ensures { Parses N.reads text.now result }
    {
        <N as FamilyText>::parse_ascii(text)
    }
}

/// Reads the network that the text spells. Does not allocate.
///
/// # Errors
/// - `AddrParseError`: exactly if the text spells no network.
///
/// # Examples
/// ```rust
/// assert!(rt; Ipv4Net::from_str("10.0.0.0/8").is_ok());
/// assert!(rt; Ipv4Net::from_str("10.0.0.0/33").is_err());
/// ```
impl<N: FamilyText> FromStr for Net<N> {
    type Err = AddrParseError;

    ghost from_str_gives = { Parses N.reads };

    fn from_str(text: &str) -> Result<Net<N>, AddrParseError> {
        Net::parse_ascii(text.as_bytes())
    }
}

/// Writes the address, a slash and the length. An IPv4 address is four decimal octets, and an IPv6 address is written as in RFC 5952.
/// The formatter's width, fill and sign are ignored.
///
/// # Examples
/// `v4` parses a text:
///
/// ```rust
/// let net = v4(&rt, "010.1.2.3/16");
/// let text = format!(in rt.alloc(); "{net}").expect(&rt, "memory");
/// assert_eq!(rt; text.as_str(), "10.1.2.3/16");
/// ```
impl<N: FamilyText> fmt::Display for Net<N> {
    ghost output = { λ n. Some (N.text n) };

    ghost styled_output = { λ n _. Some (N.text n) };

    fn fmt<W: fmt::Write>(&self, f: &mut fmt::Formatter<W>) -> fmt::Result {
        let text = self.to_text();
        f.write_str(str::from_utf8(text.as_slice()).map_err(|_| fmt::Error)?)
    }
}

/// Writes the text of `Display`.
impl<N: FamilyText> fmt::Debug for Net<N> {
    ghost debug_output = { λ n. Some (N.text n) };

    fn fmt<W: fmt::Write>(&self, f: &mut fmt::Formatter<W>) -> fmt::Result
        ensures writes { DisplaysOnOk W.write_str_gives f.old result (Some (N.text self.now)) f.new }
        ensures styled { DisplaysStyledOnOk W.write_str_gives f.old result (Some (N.text self.now)) f.new }
    {
        fmt::Display::fmt(self, f)
    }
}

impl IpNet {
    /// Returns the text that `Display` writes, at most 43 bytes. Does not allocate.
    ///
    /// # Examples
    /// For `net`, 2001:db8::1/32:
    ///
    /// ```rust
    /// assert_eq!(rt; net.to_text().as_slice(), b"2001:db8::1/32".as_slice());
    /// ```
    pub fn to_text(&self) -> ArrayVec<u8, 43>
        ensures text { result.items ≡ net_text self.now }
        ensures reads { Reads result.items self.now }
        ensures len { length result.items ≤ 43 }
    {
        let mut out = ArrayVec::new();
        self.push_text(&mut out);
        out
    }

    /// Appends the text of `to_text`. There must be room for 43 bytes, the longest text. Does not allocate.
    pub fn push_text<const CAPACITY: usize>(&self, out: &mut ArrayVec<u8, CAPACITY>)
        requires { array_vec_len out.old + 43 ≤ CAPACITY }
        ensures text { out.new.items ≡ out.old.items ++ net_text self.now }
        ensures reads { Reads (net_text self.now) self.now }
        ensures len { array_vec_len out.new ≤ array_vec_len out.old + 43 }
    {
        match self {
            IpNet::V4(net) => net.push_text(out),
            IpNet::V6(net) => net.push_text(out),
        }
    }

    /// Reads the network that these bytes spell, as `from_str` does. Does not allocate.
    ///
    /// # Errors
    /// - `AddrParseError`: exactly if these bytes spell no network.
    ///
    /// # Examples
    /// ```rust
    /// let net = IpNet::parse_ascii(b"2001:DB8::1/32").expect(&rt, "a network");
    /// assert_eq!(rt; net.to_text().as_slice(), b"2001:db8::1/32".as_slice());
    /// ```
    pub fn parse_ascii(text: &[u8]) -> Result<IpNet, AddrParseError>
        ensures { Parses Reads text.now result }
    {
        if let Ok(net) = Ipv4Net::parse_ascii(text) {
            Ok(IpNet::V4(net))
        } else if let Ok(net) = Ipv6Net::parse_ascii(text) {
            Ok(IpNet::V6(net))
        } else {
            Err(AddrParseError(()))
        }
    }
}

/// Reads the network that the text spells. Does not allocate.
///
/// # Errors
/// - `AddrParseError`: exactly if the text spells no network.
///
/// # Examples
/// ```rust
/// assert!(rt; matches!(IpNet::from_str("10.0.0.0/8"), Ok(IpNet::V4(_))));
/// assert!(rt; matches!(IpNet::from_str("2001:db8::/32"), Ok(IpNet::V6(_))));
/// assert!(rt; matches!(IpNet::from_str("10.0.0.0"), Err(_)));
/// ```
impl FromStr for IpNet {
    type Err = AddrParseError;

    ghost from_str_gives = { Parses Reads };

    fn from_str(text: &str) -> Result<IpNet, AddrParseError> {
        IpNet::parse_ascii(text.as_bytes())
    }
}

/// Writes the text of the network in its family.
impl fmt::Display for IpNet {
    ghost output = { λ n. Some (net_text n) };

    ghost styled_output = { λ n _. Some (net_text n) };

    fn fmt<W: fmt::Write>(&self, f: &mut fmt::Formatter<W>) -> fmt::Result {
        let text = self.to_text();
        f.write_str(str::from_utf8(text.as_slice()).map_err(|_| fmt::Error)?)
    }
}

/// Writes the text of `Display`.
impl fmt::Debug for IpNet {
    ghost debug_output = { λ n. Some (net_text n) };

    fn fmt<W: fmt::Write>(&self, f: &mut fmt::Formatter<W>) -> fmt::Result
        ensures writes { DisplaysOnOk W.write_str_gives f.old result (Some (net_text self.now)) f.new }
        ensures styled { DisplaysStyledOnOk W.write_str_gives f.old result (Some (net_text self.now)) f.new }
    {
        fmt::Display::fmt(self, f)
    }
}
