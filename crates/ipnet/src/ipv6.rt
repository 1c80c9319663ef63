//! The parts that only IPv6 networks have: texts, bytes, hosts and conversions.
ghost use Rattle.std.specs.Prelude.{◌≡◌, ◌≤◌, ◌+◌, ◌++◌, IfSome, option_map};
ghost use Rattle.std.specs.Net.Addr.{ipv6_bits, ipv6_segments};
ghost use Rattle.std.specs.Net.Grammar.{Parses};
ghost use Rattle.arrayvec.specs.ArrayVec.{array_vec_len};
ghost use Rattle.ipnet_addr.specs.Addresses.{Ipv6, ipv6_address};
ghost use Rattle.ipnet_addr.specs.AddressReader.{read_ipv6};
ghost use Rattle.ipnet_blocks.specs.Blocks.{HasAddress};
ghost use Rattle.ipnet_blocks.specs.Hosts.{host_ends};
ghost use Rattle.ipnet_blocks.specs.Networks.{block_of};
ghost use Rattle.ipnet.specs.Forms.{ipv6_net_bytes, HoldsIpv6};
ghost use Rattle.ipnet.specs.NetworkReader.{read_network};
ghost use Rattle.ipnet.specs.NetworkText.{ReadsIpv6, ipv6_net_text};

use crate::contains::Contains;
use crate::networks::Ipv6Net;
use crate::text::{AddrParseError, FamilyText};
use arrayvec::ArrayVec;
use ipnet_addr::bits::ipv6_of;
use ipnet_addr::parser::{read_byte, read_ipv6, read_short};
use ipnet_addr::printer::{push_decimal, push_ipv6};
use ipnet_addr::ranges::Ipv6AddrRange;
use std::net::Ipv6Addr;

/// The network of this address alone.
impl From<Ipv6Addr> for Ipv6Net {
    ghost from_gives = { λ a n. n ≡ record { number = ipv6_bits a; len = 128 } };

    fn from(addr: Ipv6Addr) -> Ipv6Net {
        Ipv6Net::new_assert(addr, 128)
    }
}

/// `self` contains the address.
impl Contains<&Ipv6Addr> for Ipv6Net {
    ghost contained = { λ n a. HasAddress (block_of Ipv6 n) (ipv6_address a.now) };

    fn contains(&self, other: &Ipv6Addr) -> bool {
        self.holds(*other)
    }
}

impl Ipv6Net {
    /// Appends the text of `to_text`. There must be room for 43 bytes, the longest text. Does not allocate.
    pub fn push_text<const CAPACITY: usize>(&self, out: &mut ArrayVec<u8, CAPACITY>)
        requires { array_vec_len out.old + 43 ≤ CAPACITY }
        ensures text { out.new.items ≡ out.old.items ++ ipv6_net_text self.now }
        ensures reads { ReadsIpv6 (ipv6_net_text self.now) self.now }
        ensures len { array_vec_len out.new ≤ array_vec_len out.old + 43 }
    {
        push_ipv6(out, self.addr());
        out.push(b'/');
        push_decimal(out, self.prefix_len());
    }

    /// Returns the addresses of the hosts: all addresses of the network.
    ///
    /// # Examples
    /// `v6` parses a text; `low()` is the address 0, and `high()` the greatest address:
    ///
    /// ```rust
    /// let all = v6(&rt, "::/0").hosts();
    /// is_equal(&rt, all, Ipv6AddrRange::new(low(), high()));
    /// ```
    pub fn hosts(&self) -> Ipv6AddrRange
        ensures { result ≡ host_ends (block_of Ipv6 self.now) }
    {
        Ipv6AddrRange::new(self.network(), self.broadcast())
    }

    /// Returns the sixteen octets of the address, with its host bits, and then the length.
    ///
    /// # Examples
    /// `v6` parses a text:
    ///
    /// ```rust
    /// let net = v6(&rt, "2001:db8::1/64");
    /// let bytes = [0x20, 1, 0x0d, 0xb8, 0, 0, 0, 0, 0, 0, 0, 0, 0, 0, 0, 1, 64];
    /// is_equal(&rt, net.to_bytes(), bytes);
    /// ```
    pub fn to_bytes(&self) -> [u8; 17]
        ensures bytes { result ≡ ipv6_net_bytes self.now }
        ensures holds { HoldsIpv6 result self.now }
    {
        let mut bytes = [0; 17];
        bytes[..16].copy_from_slice(&self.number().to_be_bytes());
        bytes[16] = self.prefix_len();
        bytes
    }

    /// Reads the network that `to_bytes` made these bytes of. Does not allocate.
    ///
    /// # Errors
    /// - `AddrParseError`: exactly if there aren't seventeen bytes, or the last one, the length, is above 128.
    ///
    /// # Examples
    /// For each network `net`:
    ///
    /// ```rust
    /// is_equal(&rt, &Ipv6Net::from_bytes(&net.to_bytes()), &Ok(net));
    /// ```
    pub fn from_bytes(bytes: &[u8]) -> Result<Ipv6Net, AddrParseError>
        ensures { Parses HoldsIpv6 bytes.now result }
    {
        if bytes.len() != 17 {
            return Err(AddrParseError(()));
        }
        let mut octets = [0; 16];
        octets.copy_from_slice(&bytes[..16]);
        match Ipv6Net::new(ipv6_of(u128::from_be_bytes(octets)), bytes[16]) {
            Ok(net) => Ok(net),
            Err(_) => Err(AddrParseError(())),
        }
    }
}

/// The text of an IPv6 network is an address as RFC 5952 writes it, a slash and the length.
impl FamilyText for u128 {
    ghost text = { ipv6_net_text };

    ghost reads = { ReadsIpv6 };

    ghost longest = { 43 };

    fn to_text(net: &Ipv6Net) -> ArrayVec<u8, 43> {
        let mut out = ArrayVec::new();
        net.push_text(&mut out);
        out
    }

    fn parse_ascii(bytes: &[u8]) -> Result<Ipv6Net, AddrParseError> {
        match read_ipv6_network(bytes) {
            Some((addr, len)) => Ok(Ipv6Net::new_assert(addr, len)),
            None => Err(AddrParseError(())),
        }
    }
}

/// Reads an IPv6 address, a slash and a length, with nothing before or after.
#[tactic(auto, unfolding(crate::specs::NetworkReader::read_network))]
fn read_ipv6_network(s: &[u8]) -> Option<(Ipv6Addr, u8)>
    ensures value { option_map (λ n. (ipv6_segments n.0, n.1)) result ≡ read_network (read_ipv6 s.now) 3 128 }
    ensures fits { IfSome result (λ n. n.1 ≤ 128) }
{
    let (addr, s) = read_ipv6(s)?;
    let (len, s) = read_short(read_byte(s, b'/')?, 10, 3, 128)?;
    if s.is_empty() {
        Some((addr, len as u8))
    } else {
        None
    }
}
