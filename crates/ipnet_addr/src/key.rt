//! The unsigned numbers that prefixes are made of.
ghost use Rattle.std.specs.Prelude.{◌≡◌, ℕ, ◌-◌, ◌*◌, ◌/◌, ◌%◌, ◌<◌, ◌≤◌, ◌^◌, refl};

/// An unsigned number of 8, 16, 32, 64 or 128 bits.
pub trait Key: Copy + Drop {
    /// The number of bits.
    ghost width: { ℕ };

    /// The value of a key, below two to the width.
    ghost number: { Self → ℕ };

    /// The key of a value.
    ghost of_number: { ℕ → Self };

    /// Two keys with the same value are the same key.
    ghost named: { (x : Self) → of_number (number x) ≡ x };

    /// Returns the number of bits of a key.
    fn width() -> u8
        ensures value { result ≡ width }
        ensures positive { 0 < result }
        ensures within { result ≤ 128 };

    /// Returns the value of the key.
    fn to_bits(self) -> u128
        ensures value { result ≡ number self }
        ensures below { result < 2 ^ width };

    /// Returns the key of this value.
    fn from_bits(bits: u128) -> Self
        requires { bits < 2 ^ width }
        ensures { result ≡ of_number bits };

    /// Returns the key whose first `len` bits are set, and no others.
    #[inline]
    fn mask(len: u8) -> Self
        requires { len ≤ width }
        ensures { number result ≡ 2 ^ width - 2 ^ (width - len) }
    {
        let whole = u128::MAX >> (128 - Self::width());
        if len == 128 {
            return Self::from_bits(whole);
        }
        Self::from_bits(whole - (whole >> len))
    }

    /// Returns the key shifted left by `count`: its first `count` bits are dropped, and zeros fill the end.
    #[inline]
    fn shifted_left(self, count: u8) -> Self
        requires { count ≤ width }
        ensures { number result ≡ number self * 2 ^ count % 2 ^ width }
    {
        let free = 128 - Self::width();
        let bits = self.to_bits();
        if count == 128 {
            return Self::from_bits(0);
        }
        Self::from_bits(bits << free << count >> free)
    }

    /// Returns the key shifted right by `count`: its last `count` bits are dropped, and zeros fill the front.
    #[inline]
    fn shifted_right(self, count: u8) -> Self
        requires { count ≤ width }
        ensures { number result ≡ number self / 2 ^ count }
    {
        let bits = self.to_bits();
        if count == Self::width() {
            return Self::from_bits(0);
        }
        Self::from_bits(bits >> count)
    }

    /// Each value below two to the width is the value of its key.
    ghost numbered: { (n : ℕ) → n < 2 ^ width → number (of_number n) ≡ n };
}

impl Key for u8 {
    ghost width = { 8 };

    ghost number = { λ x. x };

    ghost of_number = { λ n. n };

    ghost numbered = { λ n h. refl };

    ghost named = { λ x. refl };

    #[inline]
    fn width() -> u8 {
        8
    }

    #[inline]
    fn to_bits(self) -> u128 {
        self as u128
    }

    #[inline]
    fn from_bits(bits: u128) -> u8 {
        bits as u8
    }
}

impl Key for u16 {
    ghost width = { 16 };

    ghost number = { λ x. x };

    ghost of_number = { λ n. n };

    ghost numbered = { λ n h. refl };

    ghost named = { λ x. refl };

    #[inline]
    fn width() -> u8 {
        16
    }

    #[inline]
    fn to_bits(self) -> u128 {
        self as u128
    }

    #[inline]
    fn from_bits(bits: u128) -> u16 {
        bits as u16
    }
}

impl Key for u32 {
    ghost width = { 32 };

    ghost number = { λ x. x };

    ghost of_number = { λ n. n };

    ghost numbered = { λ n h. refl };

    ghost named = { λ x. refl };

    #[inline]
    fn width() -> u8 {
        32
    }

    #[inline]
    fn to_bits(self) -> u128 {
        self as u128
    }

    #[inline]
    fn from_bits(bits: u128) -> u32 {
        bits as u32
    }
}

impl Key for u64 {
    ghost width = { 64 };

    ghost number = { λ x. x };

    ghost of_number = { λ n. n };

    ghost numbered = { λ n h. refl };

    ghost named = { λ x. refl };

    #[inline]
    fn width() -> u8 {
        64
    }

    #[inline]
    fn to_bits(self) -> u128 {
        self as u128
    }

    #[inline]
    fn from_bits(bits: u128) -> u64 {
        bits as u64
    }
}

impl Key for u128 {
    ghost width = { 128 };

    ghost number = { λ x. x };

    ghost of_number = { λ n. n };

    ghost numbered = { λ n h. refl };

    ghost named = { λ x. refl };

    #[inline]
    fn width() -> u8 {
        128
    }

    #[inline]
    fn to_bits(self) -> u128 {
        self
    }

    #[inline]
    fn from_bits(bits: u128) -> u128 {
        bits
    }
}
