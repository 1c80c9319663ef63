//! Readers of the parts of a text. Each reads from the start of a slice, and returns the value and the rest of the slice, or `None`.
//! For the crates above; not part of the promise.
ghost use Rattle.std.specs.Prelude.{◌≡◌, ◌<◌, ◌≤◌, true, false, length, take, drop, None, IfSome, SomeIff, option_copied};
ghost use Rattle.std.specs.Char.{digit_value};
ghost use Rattle.std.specs.Net.Addr.{ipv4_octets, ipv6_segments, segments_of};
ghost use Rattle.std.specs.Net.Reader as Std;
ghost use Rattle.ipnet_addr.specs.AddressReader as Reader;

use std::net::{Ipv4Addr, Ipv6Addr};

/// Returns the text after this byte, or `None` if the text doesn't begin with the byte.
pub fn read_byte(s: &[u8], byte: u8) -> Option<&[u8]>
    ensures { option_copied result ≡ Std.read_byte byte s.now }
{
    match s {
        [first, rest @ ..] if *first == byte => Some(rest),
        _ => None,
    }
}

// The value of each byte as a hex digit, or 16 if the byte isn't one. This is a table because a processor can't predict a branch on
// whether a digit is a letter.
static HEX_DIGITS: [u8; 256] = [
    16, 16, 16, 16, 16, 16, 16, 16, 16, 16, 16, 16, 16, 16, 16, 16, 16, 16, 16, 16, 16, 16, 16, 16,
    16, 16, 16, 16, 16, 16, 16, 16, 16, 16, 16, 16, 16, 16, 16, 16, 16, 16, 16, 16, 16, 16, 16, 16,
    0, 1, 2, 3, 4, 5, 6, 7, 8, 9, 16, 16, 16, 16, 16, 16, 16, 10, 11, 12, 13, 14, 15, 16, 16, 16,
    16, 16, 16, 16, 16, 16, 16, 16, 16, 16, 16, 16, 16, 16, 16, 16, 16, 16, 16, 16, 16, 16, 16, 10,
    11, 12, 13, 14, 15, 16, 16, 16, 16, 16, 16, 16, 16, 16, 16, 16, 16, 16, 16, 16, 16, 16, 16, 16,
    16, 16, 16, 16, 16, 16, 16, 16, 16, 16, 16, 16, 16, 16, 16, 16, 16, 16, 16, 16, 16, 16, 16, 16,
    16, 16, 16, 16, 16, 16, 16, 16, 16, 16, 16, 16, 16, 16, 16, 16, 16, 16, 16, 16, 16, 16, 16, 16,
    16, 16, 16, 16, 16, 16, 16, 16, 16, 16, 16, 16, 16, 16, 16, 16, 16, 16, 16, 16, 16, 16, 16, 16,
    16, 16, 16, 16, 16, 16, 16, 16, 16, 16, 16, 16, 16, 16, 16, 16, 16, 16, 16, 16, 16, 16, 16, 16,
    16, 16, 16, 16, 16, 16, 16, 16, 16, 16, 16, 16, 16, 16, 16, 16, 16, 16, 16, 16, 16, 16, 16, 16,
    16, 16, 16, 16, 16, 16, 16, 16, 16, 16, 16, 16, 16, 16,
];

// The value of the byte as a digit, or `None` if this value isn't below `radix`.
fn to_digit(b: u8, radix: u32) -> Option<u32>
    requires { radix ≤ 16 }
    ensures { SomeIff result (digit_value b < radix) (digit_value b) }
{
    let digit = if radix == 10 {
        b.wrapping_sub(b'0') as u32
    } else {
        HEX_DIGITS[b as usize] as u32
    };
    if digit < radix { Some(digit) } else { None }
}

// Reads the digits at the front. Returns their value and how many they are, or `None` if there are none or the value is above `max`.
fn read_number(s: &[u8], radix: u32, max: u32) -> Option<(u32, usize)>
    requires low { 2 ≤ radix }
    requires high { radix ≤ 16 }
    ensures value { result ≡ Std.read_number radix max s.now }
    ensures fits { IfSome result (λ n. (n.0 ≤ max) × (0 < n.1) × (n.1 ≤ length s.now)) }
{
    let mut value = 0u32;
    let mut len = 0;
    for b in s {
        let Some(digit) = to_digit(*b, radix) else {
            break;
        };
        let next = value as u64 * radix as u64 + digit as u64;
        if next > max as u64 {
            return None;
        }
        value = next as u32;
        len += 1;
    }
    if len == 0 { None } else { Some((value, len)) }
}

/// Reads a number of at most `digits` digits whose value is at most `max`; leading zeros are allowed.
#[tactic(auto, unfolding(crate::specs::AddressReader::read_short))]
pub fn read_short(s: &[u8], radix: u32, digits: usize, max: u32) -> Option<(u32, &[u8])>
    requires low { 2 ≤ radix }
    requires high { radix ≤ 16 }
    ensures value { Std.read_view (λ n. n) result ≡ Reader.read_short radix digits max s.now }
    ensures fits { IfSome result (λ n. n.0 ≤ max) }
{
    let (value, len) = read_number(s, radix, max)?;
    if len > digits {
        return None;
    }
    Some((value, &s[len..]))
}

fn read_octet(s: &[u8]) -> Option<(u8, &[u8])>
    ensures { Std.read_view (λ n. n) result ≡ Reader.read_octet s.now }
{
    let (value, rest) = read_short(s, 10, 3, 255)?;
    Some((value as u8, rest))
}

// False only if the text doesn't begin with an IPv4 address: it has at least four bytes, and none of the second to the fourth is a dot.
fn may_be_dotted(s: &[u8]) -> bool
    ensures { result ≡ false → Reader.read_ipv4 s.now ≡ None }
{
    match s {
        [_, b, c, d, ..] => (*b == b'.') | (*c == b'.') | (*d == b'.'),
        _ => true,
    }
}

// Reads four octets with dots between them. A function of its own, so that little code is inlined with `read_ipv4`.
#[inline(never)]
#[tactic(auto, unfolding(crate::specs::AddressReader::read_ipv4))]
fn read_octets(s: &[u8]) -> Option<(Ipv4Addr, &[u8])>
    ensures { Std.read_view ipv4_octets result ≡ Reader.read_ipv4 s.now }
{
    let (a, s) = read_octet(s)?;
    let (b, s) = read_octet(read_byte(s, b'.')?)?;
    let (c, s) = read_octet(read_byte(s, b'.')?)?;
    let (d, s) = read_octet(read_byte(s, b'.')?)?;
    Some((Ipv4Addr::new(a, b, c, d), s))
}

/// Reads an IPv4 address: four octets with dots between them, leading zeros allowed.
#[inline]
pub fn read_ipv4(s: &[u8]) -> Option<(Ipv4Addr, &[u8])>
    ensures { Std.read_view ipv4_octets result ≡ Reader.read_ipv4 s.now }
{
    if may_be_dotted(s) {
        read_octets(s)
    } else {
        None
    }
}

fn read_group(s: &[u8]) -> Option<(u16, &[u8])>
    ensures { Std.read_view (λ n. n) result ≡ Reader.read_group s.now }
{
    let (value, rest) = read_short(s, 16, 4, 0xffff)?;
    Some((value as u16, rest))
}

// Reads the colon that precedes each group but the first.
fn read_separator(s: &[u8], first: bool) -> Option<&[u8]>
    ensures { option_copied result ≡ Std.read_separator first s.now }
{
    if first { Some(s) } else { read_byte(s, b':') }
}

fn read_ipv4_if(s: &[u8], fits: bool) -> Option<(Ipv4Addr, &[u8])>
    ensures { Std.read_view ipv4_octets result ≡ Reader.read_ipv4_if fits s.now }
{
    if fits { read_ipv4(s) } else { None }
}

// The two halves of the address, as the last two units of an IPv6 address.
fn halves(ip: Ipv4Addr) -> [u16; 2]
    ensures { result ≡ segments_of (ipv4_octets ip) }
{
    let [a, b, c, d] = ip.octets();
    [a as u16 * 256 + b as u16, c as u16 * 256 + d as u16]
}

// Reads units with `:` between them into the front of `units`; an IPv4 address may take the place of the last two. Returns the number of
// units read, whether an IPv4 address ended them, and the rest of the text.
fn read_units<'a>(text: &'a [u8], units: &mut [u16]) -> (usize, bool, &'a [u8])
    ensures value { Reader.read_units (length units.old) true text.now
        ≡ (take result.0 units.new, result.1, result.2.now) }
    ensures within { result.0 ≤ length units.old }
    ensures others { drop result.0 units.new ≡ drop result.0 units.old }
{
    let room = units.len();
    let mut s = text;
    for i in 0..room {
        let Some(group) = read_separator(s, i == 0) else {
            return (i, false, s);
        };
        if let Some((ip, rest)) = read_ipv4_if(group, i + 1 < room) {
            let [high, low] = halves(ip);
            units[i] = high;
            units[i + 1] = low;
            return (i + 2, true, rest);
        }
        let Some((unit, rest)) = read_group(group) else {
            return (i, false, s);
        };
        units[i] = unit;
        s = rest;
    }
    (room, false, s)
}

/// Reads an IPv6 address: eight units with colons between them. `::` may replace a run of zero units, and a dotted IPv4 address may
/// replace the last two units (RFC 4291, section 2.2). As in the Rust crate ipnet 2.12.2, `::` may also replace no unit.
pub fn read_ipv6(s: &[u8]) -> Option<(Ipv6Addr, &[u8])>
    ensures { Std.read_view ipv6_segments result ≡ Reader.read_ipv6 s.now }
{
    let mut head = [0; 8];
    let (head_len, ends_in_ipv4, s) = read_units(s, &mut head);
    if head_len == 8 {
        return Some((Ipv6Addr::from_segments(head), s));
    }
    if ends_in_ipv4 {
        return None;
    }
    let s = read_byte(read_byte(s, b':')?, b':')?;
    let mut tail = [0; 8];
    let (tail_len, _, s) = read_units(s, &mut tail[..8 - head_len]);
    head[8 - tail_len..].copy_from_slice(&tail[..tail_len]);
    Some((Ipv6Addr::from_segments(head), s))
}
