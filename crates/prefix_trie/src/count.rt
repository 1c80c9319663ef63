//! The number of addresses that a map covers.
ghost use Rattle.std.specs.Prelude.{◌≡◌, ◌+◌, ◌<◌, ◌≤◌, ◌^◌, false, IfSome, MatchOption, IsTrue};
ghost use Rattle.ipnet_blocks.specs.BitStrings.{begins};
ghost use Rattle.prefix_trie.specs.Covered.{covered_count};

use crate::map::PrefixMap;
use crate::prefix::{Prefix, prefix_of};
use ipnet_addr::key::Key;
use trie_core::Walk;

/// Whether a prefix is inside the last one, if there is a last one.
fn is_inside<P: Prefix>(last: &Option<P>, prefix: &P) -> bool
    requires fits { IsTrue (P.fits prefix.now) }
    requires last_fits { IfSome last.now (λ b. IsTrue (P.fits b)) }
    ensures { MatchOption last.now (result ≡ false) (λ b. result ≡ begins (P.bits b) (P.bits prefix.now)) }
{
    match last {
        None => false,
        Some(last) => last.contains(prefix),
    }
}

/// `left` minus 2^`free`, or `None` if that is negative.
fn without(left: u128, free: u8) -> Option<u128>
    requires { free ≤ 128 }
    ensures { MatchOption result (left < 2 ^ free) (λ rest. rest + 2 ^ free ≡ left) }
{
    if free == 128 {
        return None;
    }
    left.checked_sub(1 << free)
}

impl<P: Prefix + Drop, T> PrefixMap<P, T> {
    /// Returns the number of addresses that the keys cover, each counted once. An address is a prefix of full length. Returns `None` if
    /// the keys cover all addresses, since their number doesn't fit. Does not allocate.
    ///
    /// # Examples
    /// In a map with 10.0.0.0/8 and 10.1.0.0/16, which is inside it:
    ///
    /// ```rust
    /// assert_eq!(rt; map.address_count(), Some(1 << 24));
    /// ```
    pub fn address_count(&self) -> Option<P::R>
        ensures { MatchOption result (covered_count P.R.width self.now.entries ≡ 2 ^ P.R.width) (λ n. (P.R.number n ≡ covered_count P.R.width self.now.entries) × (covered_count P.R.width self.now.entries < 2 ^ P.R.width)) }
    {
        let width = <P::R as Key>::width();
        let whole = u128::MAX >> (128 - width);
        let mut left = whole;
        let mut last: Option<P> = None;
        let mut walk = Walk::new(self.walked());
        'walk: while let Some((path, _)) = walk.next() {
            let prefix: P = prefix_of(&path);
            if is_inside(&last, &prefix) {
                continue 'walk;
            }
            left = without(left, width - path.len())?;
            last = Some(prefix);
        }
        Some(<P::R as Key>::from_bits(whole - left))
    }
}
