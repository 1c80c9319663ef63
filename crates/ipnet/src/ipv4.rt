//! The parts that only IPv4 networks have: texts, bytes, hosts and conversions.
ghost use Rattle.std.specs.Prelude.{◌≡◌, ◌≤◌, ◌+◌, ◌++◌, IfSome, option_map};
ghost use Rattle.std.specs.Net.Addr.{ipv4_bits, ipv4_octets};
ghost use Rattle.std.specs.Net.Grammar.{Parses};
ghost use Rattle.arrayvec.specs.ArrayVec.{array_vec_len};
ghost use Rattle.ipnet_addr.specs.Addresses.{Ipv4, ipv4_address};
ghost use Rattle.ipnet_addr.specs.AddressReader.{read_ipv4};
ghost use Rattle.ipnet_blocks.specs.Blocks.{HasAddress};
ghost use Rattle.ipnet_blocks.specs.Hosts.{host_ends};
ghost use Rattle.ipnet_blocks.specs.Networks.{block_of};
ghost use Rattle.ipnet.specs.Forms.{ipv4_net_bytes, HoldsIpv4};
ghost use Rattle.ipnet.specs.NetworkReader.{read_network};
ghost use Rattle.ipnet.specs.NetworkText.{ReadsIpv4, ipv4_net_text};

use crate::contains::Contains;
use crate::networks::Ipv4Net;
use crate::text::{AddrParseError, FamilyText};
use arrayvec::ArrayVec;
use ipnet_addr::bits::ipv4_of;
use ipnet_addr::parser::{read_byte, read_ipv4, read_short};
use ipnet_addr::printer::{push_decimal, push_ipv4};
use ipnet_addr::ranges::Ipv4AddrRange;
use std::net::Ipv4Addr;

/// The network of this address alone.
impl From<Ipv4Addr> for Ipv4Net {
    ghost from_gives = { λ a n. n ≡ record { number = ipv4_bits a; len = 32 } };

    fn from(addr: Ipv4Addr) -> Ipv4Net {
        Ipv4Net::new_assert(addr, 32)
    }
}

/// `self` contains the address.
impl Contains<&Ipv4Addr> for Ipv4Net {
    ghost contained = { λ n a. HasAddress (block_of Ipv4 n) (ipv4_address a.now) };

    fn contains(&self, other: &Ipv4Addr) -> bool {
        self.holds(*other)
    }
}

impl Ipv4Net {
    /// Appends the text of `to_text`. There must be room for 43 bytes, the longest text of either family. Does not allocate.
    pub fn push_text<const CAPACITY: usize>(&self, out: &mut ArrayVec<u8, CAPACITY>)
        requires { array_vec_len out.old + 43 ≤ CAPACITY }
        ensures text { out.new.items ≡ out.old.items ++ ipv4_net_text self.now }
        ensures reads { ReadsIpv4 (ipv4_net_text self.now) self.now }
        ensures len { array_vec_len out.new ≤ array_vec_len out.old + 18 }
    {
        push_ipv4(out, self.addr());
        out.push(b'/');
        push_decimal(out, self.prefix_len());
    }

    /// Returns the addresses of the hosts: all but `network` and `broadcast` if the length is below 31, and else all.
    ///
    /// # Examples
    /// `v4` parses a text:
    ///
    /// ```rust
    /// let mut hosts = v4(&rt, "10.0.0.0/30").hosts();
    /// assert_eq!(rt; hosts.next(), Some(Ipv4Addr::new(10, 0, 0, 1)));
    /// assert_eq!(rt; hosts.next(), Some(Ipv4Addr::new(10, 0, 0, 2)));
    /// assert_eq!(rt; hosts.next(), None);
    /// ```
    pub fn hosts(&self) -> Ipv4AddrRange
        ensures { result ≡ host_ends (block_of Ipv4 self.now) }
    {
        let first = self.network().to_bits();
        let last = self.broadcast().to_bits();
        if self.prefix_len() < 31 {
            Ipv4AddrRange::new(ipv4_of(first + 1), ipv4_of(last - 1))
        } else {
            Ipv4AddrRange::new(self.network(), self.broadcast())
        }
    }

    /// Returns the four octets of the address, with its host bits, and then the length.
    ///
    /// # Examples
    /// `v4` parses a text:
    ///
    /// ```rust
    /// let net = v4(&rt, "10.1.2.3/16");
    /// is_equal(&rt, net.to_bytes(), [0x0a, 1, 2, 3, 0x10]);
    /// ```
    pub fn to_bytes(&self) -> [u8; 5]
        ensures bytes { result ≡ ipv4_net_bytes self.now }
        ensures holds { HoldsIpv4 result self.now }
    {
        let [a, b, c, d] = (self.number() as u32).to_be_bytes();
        [a, b, c, d, self.prefix_len()]
    }

    /// Reads the network that `to_bytes` made these bytes of. Does not allocate.
    ///
    /// # Errors
    /// - `AddrParseError`: exactly if there aren't five bytes, or the last one, the length, is above 32.
    ///
    /// # Examples
    /// For each network `net`:
    ///
    /// ```rust
    /// is_equal(&rt, &Ipv4Net::from_bytes(&net.to_bytes()), &Ok(net));
    /// ```
    pub fn from_bytes(bytes: &[u8]) -> Result<Ipv4Net, AddrParseError>
        ensures { Parses HoldsIpv4 bytes.now result }
    {
        let [a, b, c, d, len] = bytes else {
            return Err(AddrParseError(()));
        };
        let number = u32::from_be_bytes([*a, *b, *c, *d]);
        match Ipv4Net::new(ipv4_of(number), *len) {
            Ok(net) => Ok(net),
            Err(_) => Err(AddrParseError(())),
        }
    }
}

/// The text of an IPv4 network is four decimal octets, a slash and the length.
impl FamilyText for u32 {
    ghost text = { ipv4_net_text };

    ghost reads = { ReadsIpv4 };

    ghost longest = { 18 };

    fn to_text(net: &Ipv4Net) -> ArrayVec<u8, 43> {
        let mut out = ArrayVec::new();
        net.push_text(&mut out);
        out
    }

    fn parse_ascii(bytes: &[u8]) -> Result<Ipv4Net, AddrParseError> {
        match read_ipv4_network(bytes) {
            Some((addr, len)) => Ok(Ipv4Net::new_assert(addr, len)),
            None => Err(AddrParseError(())),
        }
    }
}

/// Reads an IPv4 address, a slash and a length, with nothing before or after.
#[tactic(auto, unfolding(crate::specs::NetworkReader::read_network))]
fn read_ipv4_network(s: &[u8]) -> Option<(Ipv4Addr, u8)>
    ensures value { option_map (λ n. (ipv4_octets n.0, n.1)) result ≡ read_network (read_ipv4 s.now) 2 32 }
    ensures fits { IfSome result (λ n. n.1 ≤ 32) }
{
    let (addr, s) = read_ipv4(s)?;
    let (len, s) = read_short(read_byte(s, b'/')?, 10, 2, 32)?;
    if s.is_empty() {
        Some((addr, len as u8))
    } else {
        None
    }
}
