//! Printers of the parts of a text. Each appends to a buffer, which must have room for the text. For the crates above; not part of the
//! promise.
ghost use Rattle.std.specs.Prelude.{◌≡◌, ◌+◌, ◌-◌, ◌*◌, ◌<◌, ◌≤◌, ◌++◌, length, decimal};
ghost use Rattle.std.specs.Char.{digit_char};
ghost use Rattle.std.specs.Net.Addr.{ipv4_octets, ipv6_segments, IsIpv4Addr, IsIpv6Addr};
ghost use Rattle.std.specs.Net.Text as Text;
ghost use Rattle.arrayvec.specs.ArrayVec.{array_vec_len};

use arrayvec::ArrayVec;
use std::net::{Ipv4Addr, Ipv6Addr};

/// Appends a number in decimal, without leading zeros.
pub fn push_decimal<const N: usize>(out: &mut ArrayVec<u8, N>, n: u8)
    requires { array_vec_len out.old + 3 ≤ N }
    ensures bytes { out.new.items ≡ out.old.items ++ decimal n }
    ensures len { array_vec_len out.new ≤ array_vec_len out.old + 3 }
    ensures short { n < 100 → array_vec_len out.new ≤ array_vec_len out.old + 2 }
{
    if n >= 100 {
        out.push(b'0' + n / 100);
    }
    if n >= 10 {
        out.push(b'0' + n / 10 % 10);
    }
    out.push(b'0' + n % 10);
}

/// Appends an IPv4 address: four decimal octets with dots between them.
pub fn push_ipv4<const N: usize>(out: &mut ArrayVec<u8, N>, addr: Ipv4Addr)
    requires { array_vec_len out.old + 15 ≤ N }
    ensures bytes { out.new.items ≡ out.old.items ++ Text.ipv4_text (ipv4_octets addr) }
    ensures len { array_vec_len out.new ≤ array_vec_len out.old + 15 }
    ensures octets { IsIpv4Addr addr }
{
    let [a, b, c, d] = addr.octets();
    push_decimal(out, a);
    out.push(b'.');
    push_decimal(out, b);
    out.push(b'.');
    push_decimal(out, c);
    out.push(b'.');
    push_decimal(out, d);
}

// Appends bytes; the caller has checked the room.
fn push_all<const N: usize>(out: &mut ArrayVec<u8, N>, bytes: &[u8])
    requires { array_vec_len out.old + length bytes.now ≤ N }
    ensures bytes { out.new.items ≡ out.old.items ++ bytes.now }
    ensures len { array_vec_len out.new ≡ array_vec_len out.old + length bytes.now }
{
    let _ = out.try_extend_from_slice(bytes);
}

fn hex_char(d: u16) -> u8
    requires { d < 16 }
    ensures { result ≡ digit_char d }
{
    if d < 10 {
        b'0' + d as u8
    } else {
        b'a' + (d - 10) as u8
    }
}

fn leading_zero_digits(n: u16) -> usize
    ensures value { result ≡ Text.leading_zero_digits n }
    ensures within { result < 4 }
{
    match n {
        0x1000.. => 0,
        0x100.. => 1,
        0x10.. => 2,
        _ => 3,
    }
}

// Appends a unit in lower-case hex, without leading zeros.
#[tactic(auto, unfolding(std::specs::Net::Text::hex))]
fn push_hex<const N: usize>(out: &mut ArrayVec<u8, N>, n: u16)
    requires { array_vec_len out.old + 4 ≤ N }
    ensures bytes { out.new.items ≡ out.old.items ++ Text.hex n }
    ensures len { array_vec_len out.new ≤ array_vec_len out.old + 4 }
{
    let digits = [
        hex_char(n / 0x1000),
        hex_char(n / 0x100 % 16),
        hex_char(n / 0x10 % 16),
        hex_char(n % 16),
    ];
    let zeros = leading_zero_digits(n);
    push_all(out, &digits[zeros..]);
}

// Appends units with `:` between them.
fn push_groups<const N: usize>(out: &mut ArrayVec<u8, N>, units: &[u16])
    requires { array_vec_len out.old + (5 * length units.now - 1) ≤ N }
    ensures bytes { out.new.items ≡ out.old.items ++ Text.groups_text units.now }
    ensures len { array_vec_len out.new ≤ array_vec_len out.old + (5 * length units.now - 1) }
{
    if let [first, rest @ ..] = units {
        push_hex(out, *first);
        for unit in rest {
            out.push(b':');
            push_hex(out, *unit);
        }
    }
}

// The start and the length of the longest run of zeros, or of the first one if several are longest.
fn longest_zero_run(units: &[u16]) -> (usize, usize)
    ensures value { result ≡ Text.longest_zero_run units.now }
    ensures within { result.0 + result.1 ≤ length units.now }
{
    let mut start = units.len();
    let mut len = 0;
    let mut run = 0;
    for i in (0..units.len()).rev() {
        run = if units[i] == 0 { run + 1 } else { 0 };
        if run >= len {
            start = i;
            len = run;
        }
    }
    (start, len)
}

// Appends units with `::` in place of the first longest run of two or more zeros.
#[tactic(auto, unfolding(std::specs::Net::Text::hex_groups_text))]
fn push_units<const N: usize>(out: &mut ArrayVec<u8, N>, units: [u16; 8])
    requires { array_vec_len out.old + 39 ≤ N }
    ensures bytes { out.new.items ≡ out.old.items ++ Text.hex_groups_text units }
    ensures len { array_vec_len out.new ≤ array_vec_len out.old + 39 }
{
    let units = &units[..];
    let (start, len) = longest_zero_run(units);
    if len > 1 {
        push_groups(out, &units[..start]);
        push_all(out, b"::");
        push_groups(out, &units[start + len..]);
    } else {
        push_groups(out, units);
    }
}

/// Appends an IPv6 address as RFC 5952 writes it: lower-case groups without leading zeros. `::` replaces the first longest run of
/// two or more zeros. An IPv4-mapped address is `::ffff:` and a dotted IPv4 address.
pub fn push_ipv6<const N: usize>(out: &mut ArrayVec<u8, N>, addr: Ipv6Addr)
    requires { array_vec_len out.old + 39 ≤ N }
    ensures bytes { out.new.items ≡ out.old.items ++ Text.ipv6_text (ipv6_segments addr) }
    ensures len { array_vec_len out.new ≤ array_vec_len out.old + 39 }
    ensures units { IsIpv6Addr addr }
{
    let segments = addr.segments();
    match addr.to_ipv4_mapped() {
        Some(ipv4) => {
            push_all(out, b"::ffff:");
            push_ipv4(out, ipv4);
        }
        None => push_units(out, segments),
    }
}
