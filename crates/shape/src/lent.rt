//! The values of a node, lent. A lone value is in no list, so the values are not always a slice.
ghost use Rattle.std.specs.Prelude.{◌≡◌, ◌≤◌, [], ◌∷◌, length, take, drop, MatchOption};
ghost use Rattle.shape.specs.Shapes.{items_of};

/// The values of a node, lent.
#[derive(Drop)]
pub enum Items<'a, T> {
    /// A single value.
    One(&'a T),
    /// The values of a list.
    Many(&'a [T]),
}

impl<'a, T> Items<'a, T> {
    /// Returns no values.
    #[inline]
    pub fn none() -> Items<'a, T>
        ensures { items_of result ≡ [] }
    {
        Items::Many(&[])
    }

    /// Returns the same values.
    #[inline]
    pub fn again(&self) -> Items<'a, T>
        ensures { items_of result ≡ items_of self.now }
    {
        match self {
            Items::One(value) => Items::One(value),
            Items::Many(values) => Items::Many(values),
        }
    }

    /// Returns the first value and the values after it, or `None` if there are no values.
    #[inline]
    pub fn split_first(&self) -> Option<(&'a T, Items<'a, T>)>
        ensures { MatchOption result (items_of self.now ≡ []) (λ p. items_of self.now ≡ p.0.now ∷ items_of p.1) }
    {
        match self {
            Items::One(value) => Some((value, Items::none())),
            Items::Many(values) => {
                let (first, rest) = values.split_first()?;
                Some((first, Items::Many(rest)))
            }
        }
    }

    /// Returns the first `len` values.
    #[inline]
    pub fn front(self, len: usize) -> Items<'a, T>
        requires { len ≤ length (items_of self) }
        ensures { items_of result ≡ take len (items_of self.entry) }
    {
        match self {
            Items::One(value) => {
                if len == 0 {
                    return Items::none();
                }
                Items::One(value)
            }
            Items::Many(values) => Items::Many(values.split_at(len).0),
        }
    }

    /// Returns the values after the first `len`.
    #[inline]
    pub fn back(self, len: usize) -> Items<'a, T>
        requires { len ≤ length (items_of self) }
        ensures { items_of result ≡ drop len (items_of self.entry) }
    {
        match self {
            Items::One(value) => {
                if len > 0 {
                    return Items::none();
                }
                Items::One(value)
            }
            Items::Many(values) => Items::Many(values.split_at(len).1),
        }
    }
}
