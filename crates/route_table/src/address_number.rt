//! Numbers of addresses, in the size of the family.
ghost use Rattle.std.specs.Prelude.{◌≡◌, ◌-◌, ◌<◌, ◌^◌, ⊤};

use ipnet_addr::key::Key;
use std::alloc::AllocError;
use std::marker::Model;

/// The number of an address: 4 bytes for IPv4, and 16 for IPv6.
///
/// Contracts see the number.
#[derive(Copy)]
pub(crate) struct AddressNumber<N: Key> {
    key: N,
}

impl<N: Key> Model for AddressNumber<N> {
    ghost use Rattle.std.specs.Prelude.{ℕ};

    ghost Value = { ℕ };

    ghost view = { λ a. N.number a.key };

    ghost inverse = { λ n. record { key = N.of_number n } };

    ghost inverse_ok = { λ a h i. record { key = N.named a.key i } };
}

impl<N: Key> Clone for AddressNumber<N> {
    ghost is_clone = { λ n m. m ≡ n };

    ghost is_infallible = { λ _. ⊤ };

    fn clone(&self) -> Result<AddressNumber<N>, AllocError> {
        Ok(*self)
    }
}

/// The default is the least number.
impl<N: Key> Default for AddressNumber<N> {
    ghost is_default = { λ n. n ≡ 0 };

    fn default() -> AddressNumber<N> {
        AddressNumber::of(0)
    }
}

impl<N: Key> AddressNumber<N> {
    /// The number of a key.
    #[inline]
    pub(crate) fn of_key(key: N) -> AddressNumber<N>
        ensures { result ≡ N.number key }
    {
        AddressNumber { key }
    }

    /// Stores this number in the size of the family.
    #[inline]
    pub(crate) fn of(number: u128) -> AddressNumber<N>
        requires { number < 2 ^ N.width }
        ensures { result ≡ number }
    {
        AddressNumber {
            key: N::from_bits(number),
        }
    }

    /// The greatest number of the family.
    pub(crate) fn greatest() -> AddressNumber<N>
        ensures { result ≡ 2 ^ N.width - 1 }
    {
        AddressNumber {
            key: N::mask(N::width()),
        }
    }

    /// The number.
    #[inline]
    pub(crate) fn number(&self) -> u128
        ensures value { result ≡ self.now }
        ensures within { result < 2 ^ N.width }
    {
        self.key.to_bits()
    }
}
