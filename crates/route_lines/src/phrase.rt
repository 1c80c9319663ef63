//! The text after the first word of a line: one word, or several words with a space between them.
ghost use Rattle.std.specs.Prelude.{◌≡◌, ◌≢◌, ℕ, ◌<◌, ◌≤◌, List, ◌∷◌, ◌++◌, IfSome, IfNone};
ghost use Rattle.route_lines.specs.Phrase.{IsUnspaced, IsDecimal, Then, After};
ghost use Rattle.route_lines.specs.InnerPhrase.{Gives, IsFree};
ghost use Rattle.route_lines.specs.Words.{IsNet, IsHop, IsOptional};
ghost use Rattle.route_lines.specs.InnerFree as Free;
ghost use Rattle.std.proofs.Common.{rules};

use fast_float::parse_u64;
use ipnet::{IpNet, Ipv4Net, Ipv6Net};
use route_table::Hop;
use std::marker::Model;

// Text that is read as a whole.
pub(crate) trait Phrase: Copy {
    ghost spells: { List ℕ → Self → Type 0 };

    fn read(s: &[u8]) -> Option<Self>
        ensures { Gives spells s.now result };
}

// Text without spaces.
pub(crate) trait Word: Phrase {
    ghost free: { IsFree Self.spells };
}

impl Phrase for IpNet {
    ghost spells = { IsNet };

    fn read(s: &[u8]) -> Option<IpNet> {
        // the first colon of an IPv6 network is mostly here
        if s.get(4) == Some(&b':') {
            if let Ok(net) = Ipv6Net::parse_ascii(s) {
                return Some(IpNet::V6(net.trunc()));
            }
        }
        if let Ok(net) = Ipv4Net::parse_ascii(s) {
            return Some(IpNet::V4(net.trunc()));
        }
        if let Ok(net) = Ipv6Net::parse_ascii(s) {
            return Some(IpNet::V6(net.trunc()));
        }
        None
    }
}

impl Word for IpNet {
    ghost free = { Free.net };
}

// The number that this decimal text without leading zeros spells, if it is from `low` to `high`.
fn read_decimal(s: &[u8], low: u64, high: u64) -> Option<u64>
    ensures { Gives (IsDecimal low high) s.now result }
{
    let Some(first) = s.first() else {
        return None;
    };
    if *first == b'+' {
        return None;
    }
    if *first == b'0' && s.len() > 1 {
        return None;
    }
    let Ok(n) = parse_u64(s) else {
        return None;
    };
    if n < low {
        return None;
    }
    if n > high {
        return None;
    }
    Some(n)
}

// A number from LOW to HIGH.
#[derive(Clone, Copy)]
pub(crate) struct Decimal<const LOW: u64, const HIGH: u64> {
    pub(crate) n: u64,
}

impl<const LOW: u64, const HIGH: u64> Model for Decimal<LOW, HIGH> {
    ghost use Rattle.std.specs.Prelude.{ℕ, ◌≤◌};

    ghost Value = { ℕ };

    ghost view = { λ d. d.n };

    ghost invariant = { λ d. d.n ≤ HIGH };

    ghost inverse = { λ v. record { n = v } };

    ghost inverse_ok = { λ n h i. n };
}

impl<const LOW: u64, const HIGH: u64> Phrase for Decimal<LOW, HIGH> {
    ghost spells = { IsDecimal LOW HIGH };

    fn read(s: &[u8]) -> Option<Decimal<LOW, HIGH>> {
        let n = read_decimal(s, LOW, HIGH)?;
        Some(Decimal { n })
    }
}

impl<const LOW: u64, const HIGH: u64> Word for Decimal<LOW, HIGH> {
    ghost free = { Free.decimal_word LOW HIGH (Prim.search rules) };
}

pub(crate) type Number = Decimal<0, 0xffff_ffff>;

pub(crate) type Limit = Decimal<1, 1000>;

pub(crate) type Count = Decimal<0, 0xffff_ffff_ffff_ffff>;

pub(crate) type Preference = Decimal<0, 0xffff>;

impl Phrase for Hop {
    ghost spells = { IsHop };

    fn read(s: &[u8]) -> Option<Hop> {
        if s == b"drop".as_slice() {
            return Some(Hop::Drop);
        }
        let n = read_decimal(s, 0, 0xffff_ffff)?;
        Some(Hop::Number(n as u32))
    }
}

impl Word for Hop {
    ghost free = { Free.hop };
}

// The texts before and after the first space.
fn split_word(s: &[u8]) -> Option<(&[u8], &[u8])>
    ensures some { IfSome result (λ p. (s.now ≡ p.0.now ++ 32 ∷ p.1.now) × IsUnspaced p.0.now) }
    ensures none { IfNone result (IsUnspaced s.now) }
{
    for (i, c) in s.iter().enumerate() {
        if *c == b' ' {
            return Some((&s[..i], &s[i + 1..]));
        }
    }
    None
}

impl<A: Word, B: Phrase> Phrase for (A, B) {
    ghost spells = { Then A.spells B.spells };

    #[inline(always)]
    fn read(s: &[u8]) -> Option<(A, B)> {
        let Some((front, back)) = split_word(s) else {
            return None;
        };
        let Some(first) = A::read(front) else {
            return None;
        };
        let Some(second) = B::read(back) else {
            return None;
        };
        Some((first, second))
    }
}

// A hop and a preference, or only a hop.
#[derive(Clone, Copy)]
pub(crate) struct Optional {
    pub(crate) hop: Hop,
    pub(crate) pref: Option<u16>,
}

impl Model for Optional {
    ghost use Rattle.std.specs.Prelude.{ℕ, Option};
    ghost use Rattle.route_choices.specs.declared.hop.Hop.{Hop};

    ghost Value = { Hop × Option ℕ };

    ghost view = { λ p. (p.hop, p.pref) };

    ghost inverse = { λ v. record { hop = v.0; pref = v.1 } };

    ghost inverse_ok = { λ p h i. p };
}

impl Phrase for Optional {
    ghost spells = { IsOptional };

    fn read(s: &[u8]) -> Option<Optional> {
        if let Some((hop, pref)) = <(Hop, Preference)>::read(s) {
            let pref = Some(pref.n as u16);
            return Some(Optional { hop, pref });
        }
        let Some(hop) = Hop::read(s) else {
            return None;
        };
        Some(Optional { hop, pref: None })
    }
}

// The text after the prefix, or `None` if `s` doesn't begin with it.
fn after<'a>(s: &'a [u8], prefix: &[u8]) -> Option<&'a [u8]>
    ensures some { IfSome result (λ rest. s.now ≡ prefix.now ++ rest.now) }
    ensures none { IfNone result ((rest : List ℕ) → s.now ≢ prefix.now ++ rest) }
{
    let mut rest = s;
    for c in prefix {
        let [first, tail @ ..] = rest else {
            return None;
        };
        if *first != *c {
            return None;
        }
        rest = tail;
    }
    Some(rest)
}

// The phrase after the prefix. (Two readers of lines call it for one type. If it and the reader of two words weren't inlined, they
// would pass the pair through memory, which costs five percent of a follower's time.)
#[inline(always)]
pub(crate) fn read_after<P: Phrase>(line: &[u8], prefix: &[u8]) -> Option<P>
    ensures { Gives (After prefix.now P.spells) line.now result }
{
    P::read(after(line, prefix)?)
}
