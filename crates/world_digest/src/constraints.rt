//! Joints, contacts and colours as words.

ghost use Rattle.std.specs.Prelude.{◌≡◌, ◌≤◌, ◌+◌, OnOk};
ghost use Rattle.std.specs.Result.{IsOkUnless};
ghost use Rattle.graph_colours.specs.Colours.{ids_of, list_at};
ghost use Rattle.graph_colours.specs.declared.limits.TheConstants.{COLOURS};
ghost use Rattle.world_digest.specs.ConstraintWords.{colours_words, constraint_words, contact_words, handle_words, joint_words, key_words, point_words, row_joint_words};
ghost use Rattle.world_digest.specs.Sums.{absorbed_all, list_words};

use crate::sums::Sums;
use crate::words::{Words, feed_all};
use body_handles::Handle;
use contacts_base::{ContactEntry, ContactKey, ContactPoint};
use fixed_geom::Refusal;
use graph_colours::{Colours, Member, OVERFLOW};
use joint_rows::Joint;
use plain_world::{BodyJoint, Constraint};

impl Words for Joint {
    ghost words = { λ j. row_joint_words j };

    fn feed(&self, sums: &mut Sums) {
        self.from.feed(sums);
        self.to.feed(sums);
        sums.integer(self.length);
        sums.integer(self.impulse);
    }
}

impl Words for BodyJoint {
    ghost words = { λ j. joint_words j };

    fn feed(&self, sums: &mut Sums) {
        sums.natural(u64::from(self.a));
        sums.natural(u64::from(self.b));
        sums.truth(self.collide);
        self.joint.feed(sums);
    }
}

impl Words for ContactKey {
    ghost words = { λ k. key_words k };

    fn feed(&self, sums: &mut Sums) {
        sums.natural(self.first.number());
        sums.natural(self.second.number());
    }
}

impl Words for ContactPoint {
    ghost words = { λ p. point_words p };

    #[inline(always)]
    fn feed(&self, sums: &mut Sums) {
        self.normal.feed(sums);
        sums.integer(self.separation);
        self.ra.feed(sums);
        self.rb.feed(sums);
        sums.integer(self.normal_impulse);
        sums.integer(self.tangent_impulse);
        sums.natural(self.candidate);
    }
}

impl Words for ContactEntry {
    ghost words = { λ e. contact_words e };

    fn feed(&self, sums: &mut Sums) {
        let surface = self.surface.get();
        self.key.feed(sums);
        sums.integer(surface.friction);
        sums.integer(surface.restitution);
        self.contact.first().feed(sums);
        self.contact.second().feed(sums);
    }
}

impl Words for Handle {
    ghost words = { λ h. handle_words h };

    fn feed(&self, sums: &mut Sums) {
        sums.natural(u64::from(self.slot));
        sums.natural(u64::from(self.generation));
    }
}

impl Words for Constraint {
    ghost words = { λ c. constraint_words c };

    fn feed(&self, sums: &mut Sums) {
        match self {
            Constraint::Joint(handle) => {
                sums.natural(0);
                handle.feed(sums);
            }
            Constraint::Contact(key) => {
                sums.natural(1);
                key.feed(sums);
            }
        }
    }
}

impl Words for Member<Constraint> {
    ghost words = { λ m. constraint_words m.id };

    fn feed(&self, sums: &mut Sums) {
        self.id.feed(sums);
    }
}

/// The constraints of a colour.
fn feed_colour(colours: &Colours<Constraint>, colour: u8, sums: &mut Sums) -> Result<(), Refusal>
    requires { colour ≤ OVERFLOW }
    ensures fed { OnOk result (sums.new ≡ absorbed_all sums.old (list_words (λ m. constraint_words m.id) (list_at colours.now.lists colour))) }
    ensures memory_only { IsOkUnless result Refusal.NoMemory }
{
    let members = colours.to_members(colour)?;
    feed_all(members.as_slice(), sums);
    Ok(())
}

/// The constraints of each colour, those in the overflow last.
pub(crate) fn feed_colours(colours: &Colours<Constraint>, sums: &mut Sums) -> Result<(), Refusal>
    ensures fed { OnOk result (sums.new ≡ absorbed_all sums.old (colours_words (ids_of colours.now.lists) (COLOURS + 1))) }
    ensures memory_only { IsOkUnless result Refusal.NoMemory }
{
    for colour in 0..OVERFLOW + 1 {
        feed_colour(colours, colour, sums)?;
    }
    Ok(())
}
