//! Prefixes, seen as bit strings.
ghost use Rattle.std.specs.Prelude.{◌≡◌, ◌≤◌, ◌-◌, List, Bool, true, nat_le, length, take, IsTrue, ◌↔◌};
ghost use Rattle.ipnet_blocks.specs.Blocks.{bit_string};
ghost use Rattle.ipnet_blocks.specs.Networks.{block_of};
ghost use Rattle.trie_core.specs.Bits.{number_from};
ghost use Rattle.ipnet_blocks.specs.BitStrings.{begins};
ghost use Rattle.trie_core.specs.Prefixes.{prefix_bits, IsMasked};

use ipnet::Net;
use ipnet_addr::key::Key;
use ipnet_addr::number::AddressInt;
use trie_core::Path;

/// A prefix: a bit pattern and a length, as in the Rust crate prefix-trie 0.10.1.
///
/// `repr` returns the bit pattern as an unsigned number, the key. The prefix is its first `prefix_len` bits, most significant first. The
/// key may have ones after them, and searches ignore these. `mask` returns the key with zeros in their place.
///
/// A map stores only the bits of a prefix. It makes the prefixes that it returns by `from_repr_len`, with zeros after these bits.
///
/// `(R, u8)` for each `Key` R, `Ipv4Net` and `Ipv6Net` are such types. For a type of your own, write `repr`, `prefix_len` and
/// `from_repr_len`, and prove their clauses. The other calls follow from these. The clauses cite three functions that you define:
///
/// - `bits`: the bits of the prefix.
/// - `of_bits`: the prefix with these bits, and zeros after them.
/// - `fits`: whether the length is at most the number of bits of a key. Calls require this of each prefix. If your type allows no other
///   length, let `fits` return `true`.
///
/// The crate `embedder` implements the trait for its struct `Region`, a `label` of 16 bits and a `len`:
///
/// ```rust
/// impl Prefix for Region {
///     type R = u16;
///
///     ghost bits = { λ p. prefix_bits 16 p.label p.len };
///
///     ghost of_bits = { λ s. record { label = number_from 16 s; len = length s } };
///
///     ghost fits = { λ p. nat_le p.len 16 };
///
///     fn repr(&self) -> u16 {
///         self.label
///     }
///
///     fn prefix_len(&self) -> u8 {
///         self.len
///     }
///
///     fn from_repr_len(repr: u16, len: u8) -> Region {
///         Region { label: repr, len }
///     }
/// }
/// ```
pub trait Prefix {
    /// The type of the key. Its most significant bit is the first bit of a prefix.
    type R: Key;

    /// The bits of the prefix, most significant first.
    ghost bits: { Self → List Bool };

    /// The prefix with these bits and with zeros after them.
    ghost of_bits: { List Bool → Self };

    /// Whether the length is at most the number of bits of a key.
    ghost fits: { Self → Bool };

    /// Returns the key.
    ///
    /// # Examples
    /// `prefix` is `(0x0a01_0203_u32, 16)`, for 10.1.2.3/16:
    ///
    /// ```rust
    /// assert_eq!(rt; prefix.repr(), 0x0a01_0203);
    /// ```
    fn repr(&self) -> Self::R
        requires { IsTrue (fits self.now) }
        ensures { prefix_bits Self.R.width (Self.R.number result) (length (bits self.now)) ≡ bits self.now };

    /// Returns the length of the prefix, in bits.
    ///
    /// # Examples
    /// `prefix` is `(0x0a01_0203_u32, 16)`, for 10.1.2.3/16:
    ///
    /// ```rust
    /// assert_eq!(rt; prefix.prefix_len(), 16);
    /// ```
    fn prefix_len(&self) -> u8
        ensures value { result ≡ length (bits self.now) }
        ensures within { IsTrue (fits self.now) → result ≤ Self.R.width };

    /// Makes the prefix of the first `len` bits of a key. `len` must be at most the number of bits of a key.
    ///
    /// # Examples
    /// `prefix` is `(0x0a01_0203_u32, 16)`, for 10.1.2.3/16:
    ///
    /// ```rust
    /// assert_eq!(rt; <(u32, u8)>::from_repr_len(0x0a01_0203, 16), prefix);
    /// ```
    fn from_repr_len(repr: Self::R, len: u8) -> Self
        requires { len ≤ Self.R.width }
        ensures fits { IsTrue (fits result) }
        ensures bits { bits result ≡ prefix_bits Self.R.width (Self.R.number repr) len }
        ensures masked { IsMasked Self.R.width (Self.R.number repr) len → result ≡ of_bits (prefix_bits Self.R.width (Self.R.number repr) len) };

    /// Returns the number of bits of a key.
    ///
    /// # Examples
    /// ```rust
    /// assert_eq!(rt; <(u32, u8)>::num_bits(), 32);
    /// ```
    fn num_bits() -> u32
        ensures { result ≡ Self.R.width }
    {
        <Self::R as Key>::width() as u32
    }

    /// Returns the key with zeros after the bits of the prefix.
    ///
    /// # Examples
    /// `prefix` is `(0x0a01_0203_u32, 16)`, for 10.1.2.3/16:
    ///
    /// ```rust
    /// assert_eq!(rt; prefix.mask(), 0x0a01_0000);
    /// ```
    fn mask(&self) -> Self::R
        requires { IsTrue (fits self.now) }
        ensures number { Self.R.number result ≡ number_from Self.R.width (bits self.now) }
    {
        masked_key(self.repr(), self.prefix_len())
    }

    /// Returns whether the other's bits begin with the bits of `self`.
    ///
    /// # Examples
    /// `prefix` is `(0x0a01_0203_u32, 16)`, for 10.1.2.3/16:
    ///
    /// ```rust
    /// assert!(rt; prefix.contains(&(0x0a01_0909, 32)) && !prefix.contains(&(0x0a00_0000, 8)));
    /// ```
    fn contains(&self, other: &Self) -> bool
        requires fits { IsTrue (fits self.now) }
        requires other_fits { IsTrue (fits other.now) }
        ensures { IsTrue result ↔ IsTrue (begins (bits self.now) (bits other.now)) }
    {
        let len = self.prefix_len();
        len <= other.prefix_len()
            && masked_key(other.repr(), len).to_bits() == self.mask().to_bits()
    }
}

/// Returns a key with zeros after its first `len` bits.
#[inline]
fn masked_key<R: Key>(key: R, len: u8) -> R
    requires { len ≤ R.width }
    ensures number { R.number result ≡ number_from R.width (prefix_bits R.width (R.number key) len) }
    ensures masked { IsMasked R.width (R.number result) len }
    ensures bits { prefix_bits R.width (R.number result) len ≡ prefix_bits R.width (R.number key) len }
{
    if len == 0 {
        return R::from_bits(0);
    }
    let free = R::width() - len;
    R::from_bits(key.to_bits() >> free << free)
}

/// Returns the prefix of the first `len` bits, with zeros after them. `len` must be at most the length of the prefix.
///
/// # Examples
/// `prefix` is `(0x0a01_0203_u32, 16)`, for 10.1.2.3/16:
///
/// ```rust
/// assert_eq!(rt; truncated(&prefix, 8), (0x0a00_0000, 8));
/// ```
#[inline]
pub fn truncated<P: Prefix>(prefix: &P, len: u8) -> P
    requires fits { IsTrue (P.fits prefix.now) }
    requires within { len ≤ length (P.bits prefix.now) }
    ensures fits { IsTrue (P.fits result) }
    ensures key { result ≡ P.of_bits (take len (P.bits prefix.now)) }
    ensures bits { P.bits result ≡ take len (P.bits prefix.now) }
{
    let _within = prefix.prefix_len();
    P::from_repr_len(masked_key(prefix.repr(), len), len)
}

/// Returns the path of a prefix.
///
/// # Examples
/// `is_equal` checks that two values are equal:
///
/// ```rust
/// let path: Path = path_of(&(0x9b_u8, 8));
/// is_equal(&rt, path.len(), 8);
/// ```
#[inline]
pub fn path_of<P: Prefix>(prefix: &P) -> Path
    requires { IsTrue (P.fits prefix.now) }
    ensures value { result ≡ P.bits prefix.now }
    ensures width { length result ≤ P.R.width }
    ensures within { length result ≤ 128 }
{
    let width = <P::R as Key>::width();
    Path::new(
        prefix.repr().to_bits() << (128 - width),
        prefix.prefix_len(),
    )
}

/// Returns the prefix of the bits of a path, with zeros after them. The path must be no longer than a key.
#[inline]
pub fn prefix_of<P: Prefix>(path: &Path) -> P
    requires { length path.now ≤ P.R.width }
    ensures fits { IsTrue (P.fits result) }
    ensures bits { P.bits result ≡ path.now }
    ensures key { result ≡ P.of_bits path.now }
{
    let free = 128 - <P::R as Key>::width();
    P::from_repr_len(<P::R as Key>::from_bits(path.to_bits() >> free), path.len())
}

impl<R: Key> Prefix for (R, u8) {
    type R = R;

    ghost bits = { λ p. prefix_bits R.width (R.number p.0) p.1 };

    ghost of_bits = { λ s. (R.of_number (number_from R.width s), length s) };

    ghost fits = { λ p. nat_le p.1 R.width };

    /// Returns the key as it was given, with the bits after the prefix.
    #[inline]
    fn repr(&self) -> R
        ensures bits { prefix_bits R.width (R.number result) (length (prefix_bits R.width (R.number self.now.0) self.now.1)) ≡ prefix_bits R.width (R.number self.now.0) self.now.1 }
        ensures whole { result ≡ self.now.0 }
    {
        self.0
    }

    #[inline]
    fn prefix_len(&self) -> u8 {
        self.1
    }

    /// Makes the prefix with exactly this key.
    #[inline]
    fn from_repr_len(repr: R, len: u8) -> (R, u8)
        requires { len ≤ R.width }
        ensures fits { IsTrue (nat_le result.1 R.width) }
        ensures bits { prefix_bits R.width (R.number result.0) result.1 ≡ prefix_bits R.width (R.number repr) len }
        ensures masked { IsMasked R.width (R.number repr) len → result ≡ (R.of_number (number_from R.width (prefix_bits R.width (R.number repr) len)), length (prefix_bits R.width (R.number repr) len)) }
        ensures whole { result ≡ (repr, len) }
    {
        (repr, len)
    }
}

impl<N: AddressInt> Prefix for Net<N> {
    type R = N;

    ghost bits = { λ n. bit_string (block_of N.family n) };

    ghost of_bits = { λ s. record { number = number_from N.width s; len = length s } };

    ghost fits = { λ _. true };

    /// Returns the address of the network, with its host bits.
    #[inline]
    fn repr(&self) -> N
        ensures bits { prefix_bits N.width (N.number result) (length (bit_string (block_of N.family self.now))) ≡ bit_string (block_of N.family self.now) }
        ensures whole { N.number result ≡ self.now.number }
    {
        N::of_addr(self.addr())
    }

    #[inline]
    fn prefix_len(&self) -> u8 {
        Net::prefix_len(self)
    }

    /// Makes the network of this address, with its host bits.
    #[inline]
    fn from_repr_len(repr: N, len: u8) -> Net<N>
        requires { len ≤ N.width }
        ensures fits { IsTrue true }
        ensures bits { bit_string (block_of N.family result) ≡ prefix_bits N.width (N.number repr) len }
        ensures masked { IsMasked N.width (N.number repr) len → result ≡ record { number = number_from N.width (prefix_bits N.width (N.number repr) len); len = length (prefix_bits N.width (N.number repr) len) } }
        ensures whole { result ≡ record { number = N.number repr; len = len } }
    {
        Net::new_assert(repr.to_addr(), len)
    }
}
