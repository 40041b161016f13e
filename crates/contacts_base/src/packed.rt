//! A contact's points in little memory, as a world keeps them: most near shapes don't touch, and their contacts are
//! copied and walked over all the same.

ghost use Rattle.std.specs.Prelude.{◌≡◌, ◌≤◌, Some, None, is_some, option_map, unsigned_abs};
ghost use Rattle.contacts_base.specs.ContactLists.{with_impulses, with_second};
ghost use Rattle.contacts_base.specs.Evaluate.{apart, touches};
ghost use Rattle.contacts_base.specs.Limits.{IsPackable};
ghost use Rattle.contacts_base.specs.declared.limits.TheConstants.{MAX_NORMAL};

use crate::{ContactPoint, Impulses};
use fixed_geom::Vec2;
use std::marker::Model;

/// A point of a contact, or none, in 48 bytes. Contracts see an option of the point.
#[derive(Clone, Copy, Debug, PartialEq, Eq)]
pub(crate) struct PackedPoint {
    normal_impulse: i64,
    tangent_impulse: i64,
    normal_x: i32,
    normal_y: i32,
    separation: i32,
    ra_x: i32,
    ra_y: i32,
    rb_x: i32,
    rb_y: i32,
    candidate: u8,
    is_there: bool,
}

impl Model for PackedPoint {
    ghost use Rattle.std.specs.Prelude.{Option};
    ghost use Rattle.contacts_base.specs.declared.contact.ContactPoint.{ContactPoint};

    ghost Value = { Option ContactPoint };

    ghost use Rattle.contacts_base.specs.PackedPoints.{seen, packed, IsPacked};

    ghost view = { seen };

    ghost invariant = { IsPacked };

    ghost inverse = { packed };

    ghost inverse_ok = { λ a is. is };
}

/// A part of a normal or of an offset, or a separation, in 32 bits.
#[inline(always)]
fn narrow(number: i64) -> i32
    requires { unsigned_abs number ≤ MAX_NORMAL }
    ensures { result ≡ number }
{
    number as i32
}

impl PackedPoint {
    /// The point in little memory.
    #[inline(always)]
    fn some(point: &ContactPoint) -> PackedPoint
        requires { IsPackable point.now }
        ensures { result ≡ Some point.now }
    {
        PackedPoint {
            normal_impulse: point.normal_impulse,
            tangent_impulse: point.tangent_impulse,
            normal_x: narrow(point.normal.x),
            normal_y: narrow(point.normal.y),
            separation: narrow(point.separation),
            ra_x: narrow(point.ra.x),
            ra_y: narrow(point.ra.y),
            rb_x: narrow(point.rb.x),
            rb_y: narrow(point.rb.y),
            candidate: point.candidate as u8,
            is_there: true,
        }
    }

    /// No point.
    #[inline(always)]
    fn none() -> PackedPoint
        ensures { result ≡ None }
    {
        PackedPoint {
            normal_impulse: 0,
            tangent_impulse: 0,
            normal_x: 0,
            normal_y: 0,
            separation: 0,
            ra_x: 0,
            ra_y: 0,
            rb_x: 0,
            rb_y: 0,
            candidate: 0,
            is_there: false,
        }
    }

    /// Whether there is a point.
    #[inline(always)]
    fn is_some(&self) -> bool
        ensures { result ≡ is_some self.now }
    {
        self.is_there
    }

    /// The point, if there is one.
    #[inline(always)]
    fn get(&self) -> Option<ContactPoint>
        ensures { result ≡ self.now }
    {
        if self.is_there {
            Some(ContactPoint {
                normal: Vec2 {
                    x: i64::from(self.normal_x),
                    y: i64::from(self.normal_y),
                },
                separation: i64::from(self.separation),
                ra: Vec2 {
                    x: i64::from(self.ra_x),
                    y: i64::from(self.ra_y),
                },
                rb: Vec2 {
                    x: i64::from(self.rb_x),
                    y: i64::from(self.rb_y),
                },
                normal_impulse: self.normal_impulse,
                tangent_impulse: self.tangent_impulse,
                candidate: u64::from(self.candidate),
            })
        } else {
            None
        }
    }

    /// Gives the point, if there is one, these impulses.
    #[inline(always)]
    fn set_impulses(&mut self, impulses: Impulses)
        ensures { self.new ≡ option_map (with_impulses impulses) self.old }
    {
        if self.is_there {
            self.normal_impulse = impulses.normal_impulse;
            self.tangent_impulse = impulses.tangent_impulse;
        }
    }
}

/// A contact's points in 96 bytes. Contracts see the contact.
#[derive(Clone, Copy, Debug, PartialEq, Eq)]
pub struct PackedContact {
    first: PackedPoint,
    second: PackedPoint,
}

impl Model for PackedContact {
    ghost use Rattle.contacts_base.specs.declared.contact.Contact.{Contact};

    ghost Value = { Contact };

    ghost view = { λ a. record { first = a.first; second = a.second } };

    ghost inverse = { λ c. record { first = c.first; second = c.second } };
}

impl PackedContact {
    /// That of shapes that don't touch.
    #[inline(always)]
    pub fn apart() -> PackedContact
        ensures { result ≡ apart }
    {
        PackedContact {
            first: PackedPoint::none(),
            second: PackedPoint::none(),
        }
    }

    /// The contact with this first point.
    #[inline(always)]
    pub fn with_first(self, point: &ContactPoint) -> PackedContact
        requires { IsPackable point.now }
        ensures { result ≡ record { first = Some point.now; second = self.second } }
    {
        PackedContact {
            first: PackedPoint::some(point),
            second: self.second,
        }
    }

    /// The contact with this second point.
    #[inline(always)]
    pub fn with_second(self, point: &ContactPoint) -> PackedContact
        requires { IsPackable point.now }
        ensures { result ≡ record { first = self.first; second = Some point.now } }
    {
        PackedContact {
            first: self.first,
            second: PackedPoint::some(point),
        }
    }

    /// Whether the shapes touch: then there is a first point.
    #[inline(always)]
    pub fn is_touching(&self) -> bool
        ensures { result ≡ touches self.now }
    {
        self.first.is_some()
    }

    /// The first point.
    #[inline(always)]
    pub fn first(&self) -> Option<ContactPoint>
        ensures { result ≡ self.now.first }
    {
        self.first.get()
    }

    /// The second point.
    #[inline(always)]
    pub fn second(&self) -> Option<ContactPoint>
        ensures { result ≡ self.now.second }
    {
        self.second.get()
    }

    /// Gives the points these impulses, in mass·u/tick; without any for the second it stays as it is.
    #[inline(always)]
    pub fn set_impulses(&mut self, first: Impulses, second: Option<Impulses>)
        ensures { self.new ≡ record { first = option_map (with_impulses first) self.old.first; second = with_second second self.old.second } }
    {
        self.first.set_impulses(first);
        if let Some(second) = second {
            self.second.set_impulses(second);
        }
    }
}
