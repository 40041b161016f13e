//! The names of shapes and of contacts.

ghost use Rattle.std.specs.Prelude.{◌≡◌, ◌^◌, ◌<◌};
ghost use Rattle.contacts_base.specs.Keys.{id_number, key_number};
ghost use Rattle.contacts_base.specs.Orders.{contact_key_cmp, shape_id_cmp};

use std::cmp::Ordering;

/// Names a shape by the slot of its body and its place among the body's shapes.
#[derive(Clone, Copy, Debug, PartialEq, Eq, PartialOrd, Ord)]
pub struct ShapeId {
    pub slot: u32,
    pub index: u8,
}

/// Names a contact by its two shapes, the lesser first.
#[derive(Clone, Copy, Debug, PartialEq, Eq, PartialOrd, Ord)]
pub struct ContactKey {
    pub first: ShapeId,
    pub second: ShapeId,
}

impl ShapeId {
    /// A number below 2^40 that no other shape has; it rises with the id.
    pub fn number(self) -> u64
        ensures value { result ≡ id_number self }
        ensures small { result < 2 ^ 40 }
    {
        u64::from(self.slot) * 256 + u64::from(self.index)
    }

    /// How two names of shapes compare: by slot, and of one body by index.
    pub fn compare(self, other: ShapeId) -> Ordering
        ensures { result ≡ shape_id_cmp self other }
    {
        self.cmp(&other)
    }
}

impl ContactKey {
    /// A number below 2^80 that no other contact has; it rises with the key.
    pub fn number(self) -> u128
        ensures value { result ≡ key_number self }
        ensures small { result < 2 ^ 80 }
    {
        u128::from(self.first.number()) * (1 << 40) + u128::from(self.second.number())
    }

    /// How two keys compare: by the first shape, and then by the second.
    pub fn compare(self, other: ContactKey) -> Ordering
        ensures { result ≡ contact_key_cmp self other }
    {
        self.cmp(&other)
    }
}
