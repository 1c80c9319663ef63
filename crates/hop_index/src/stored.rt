//! The numbers of addresses as an index stores them. A range stores 4 bytes of a number for IPv4, and mostly 8 for IPv6.
ghost use Rattle.std.specs.Prelude.{◌≡◌, ℕ, ◌+◌, ◌*◌, ◌/◌, ◌%◌, ◌-◌, ◌^◌, ◌<◌, min};
ghost use Rattle.hop_index.specs.InnerRanges.{head_of};

use ipnet_addr::key::Key;

/// The number of an address of one family: `u32` for IPv4, `u128` for IPv6.
pub(crate) trait Stored: Key {
    /// The front of a number: all of it for IPv4, the first 64 bits for IPv6.
    type Front: Copy + Drop;

    /// The number with this front and these bits after it.
    ghost joined: { Self.Front → ℕ → ℕ };

    /// Returns the front and the bits after it. IPv4 has none, and returns ones.
    fn parts(self) -> (Self::Front, u64)
        ensures joined { joined result.0 result.1 ≡ Self.number self }
        ensures within { Self.number self < 2 ^ Self.width };

    /// Returns the number of a front and the bits after it.
    fn of_parts(front: Self::Front, rest: u64) -> Self
        ensures { Self.number result ≡ joined front rest };

    /// Returns the first 64 bits of the numbers with this front.
    fn head_at(front: Self::Front) -> u64
        ensures { (rest : ℕ) → result ≡ head_of Self.width (joined front rest) };

    /// Returns the first 64 bits.
    #[inline]
    fn head(self) -> u64
        ensures head { result ≡ head_of Self.width (Self.number self) }
        ensures within { Self.number self < 2 ^ Self.width }
    {
        Self::head_at(self.parts().0)
    }

    /// Returns how many steps of 2^`shift` numbers the number is above `first`, or `most` if that is less. `first` must be a multiple of
    /// 2^`shift`.
    fn steps(self, first: Self, shift: u32, most: u32) -> u32
        requires shift { shift < Self.width }
        requires first { Self.number first % 2 ^ shift ≡ 0 }
        ensures { result ≡ min most ((Self.number self - Self.number first) / 2 ^ shift) };
}

/// The highest number.
pub(crate) fn highest<N: Stored>() -> N
    ensures { N.number result + 1 ≡ 2 ^ N.width }
{
    N::mask(N::width())
}

impl Stored for u32 {
    type Front = u32;

    ghost joined = { λ front rest. front };

    #[inline]
    fn parts(self) -> (u32, u64) {
        (self, u64::MAX)
    }

    #[inline]
    fn of_parts(front: u32, _rest: u64) -> u32 {
        front
    }

    #[inline]
    fn head_at(front: u32) -> u64 {
        u64::from(front) << 32
    }

    #[inline]
    fn steps(self, first: u32, shift: u32, most: u32) -> u32 {
        (self.saturating_sub(first) >> shift).min(most)
    }
}

/// The first 64 bits of a number in two words, so that they take no padding beside a hop.
#[derive(Clone, Copy)]
pub(crate) struct Words {
    low: u32,
    high: u32,
}

impl Stored for u128 {
    type Front = Words;

    ghost joined = { λ front rest. front.high * 2 ^ 96 + front.low * 2 ^ 64 + rest % 2 ^ 64 };

    #[inline]
    fn parts(self) -> (Words, u64) {
        let low = (self >> 64 & 0xffff_ffff) as u32;
        let high = (self >> 96) as u32;
        (Words { low, high }, (self % (1 << 64)) as u64)
    }

    #[inline]
    fn of_parts(front: Words, rest: u64) -> u128 {
        (u128::from(u128::head_at(front)) << 64) + u128::from(rest)
    }

    #[inline]
    fn head_at(front: Words) -> u64 {
        (u64::from(front.high) << 32) + u64::from(front.low)
    }

    #[tactic(auto, using(crate::proofs::Divisions::steps_by_head))]
    #[inline]
    fn steps(self, first: u128, shift: u32, most: u32) -> u32 {
        if shift >= 64 {
            let above = self.head().saturating_sub(first.head()) >> (shift - 64);
            return above.min(u64::from(most)) as u32;
        }
        (self.saturating_sub(first) >> shift).min(u128::from(most)) as u32
    }
}
