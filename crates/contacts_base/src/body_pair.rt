//! Pairs of bodies.

ghost use Rattle.std.specs.Prelude.{◌≡◌};
ghost use Rattle.contacts_base.specs.Forbidden.{is_in_order, is_pair_of};

/// Two bodies, by their slots.
#[derive(Clone, Copy)]
pub struct BodyPair {
    pub a: u32,
    pub b: u32,
}

impl BodyPair {
    /// Whether it is of the bodies in these two slots, in this order.
    fn is_in_order(&self, a: u32, b: u32) -> bool
        ensures { result ≡ is_in_order a b self.now }
    {
        self.a == a && self.b == b
    }

    /// Whether it is of the bodies in these two slots, whichever comes first.
    pub fn is_of(&self, a: u32, b: u32) -> bool
        ensures { result ≡ is_pair_of a b self.now }
    {
        self.is_in_order(a, b) || self.is_in_order(b, a)
    }
}
