//! Next hops.
ghost use Rattle.std.specs.Prelude.{◌≡◌};
ghost use Rattle.route_choices.specs.Hops.{IsHop, number_of};

/// The next hop of a network's addresses: a number, or `drop`.
#[derive(Clone, Copy, PartialEq, Eq, Debug, Default)]
pub enum Hop {
    /// The number of the hop.
    Number(u32),
    /// The addresses are dropped: they have no hop, not even that of a shorter route.
    #[default]
    Drop,
}

impl Hop {
    /// Returns the number of the hop, or `None` for `Drop`.
    ///
    /// # Examples
    /// ```rust
    /// assert_eq!(rt; Hop::Number(7).number(), Some(7));
    /// assert_eq!(rt; Hop::Drop.number(), None);
    /// ```
    pub fn number(self) -> Option<u32>
        ensures number { result ≡ number_of self }
        ensures in_range { IsHop self }
    {
        match self {
            Hop::Number(number) => Some(number),
            Hop::Drop => None,
        }
    }
}
