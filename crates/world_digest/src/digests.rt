//! The digest of a world.

ghost use Rattle.std.specs.Prelude.{◌≡◌, IfOk, OnOk};
ghost use Rattle.std.specs.Result.{IsOkUnless};
ghost use Rattle.impulse_ledger.specs.Sums.{totals_of};
ghost use Rattle.world_digest.specs.Digests.{counts_words, digest_of, links_words, slots_words, total_words, totals_words};
ghost use Rattle.world_digest.specs.Sums.{absorbed_all};
ghost use Rattle.world_rules.specs.World.{book_of};

use crate::constraints::feed_colours;
use crate::contact_lists::feed_contacts;
use crate::labels::feed_islands;
use crate::sums::Sums;
use crate::words::{Words, feed_all};
use fixed_geom::Refusal;
use impulse_ledger::{Total, Totals};
use world_core::WorldCore;

impl Words for Total {
    ghost words = { λ t. total_words t };

    fn feed(&self, sums: &mut Sums) {
        sums.wide(self.x);
        sums.wide(self.y);
    }
}

impl Words for Totals {
    ghost words = { λ t. totals_words t };

    fn feed(&self, sums: &mut Sums) {
        self.command.feed(sums);
        self.gravity.feed(sums);
        self.immovable.feed(sums);
        self.clamp.feed(sums);
        self.rest.feed(sums);
        self.departed.feed(sums);
    }
}

/// What stands in the slots of bodies and of joints.
fn feed_slots(world: &WorldCore, sums: &mut Sums)
    ensures { sums.new ≡ absorbed_all sums.old (slots_words world.now.plain) }
{
    feed_all(world.slot_entries(), sums);
    feed_all(world.bodies(), sums);
    feed_all(world.joint_entries(), sums);
    feed_all(world.joints().joints(), sums);
}

/// Contacts, islands and colours.
fn feed_links(world: &WorldCore, sums: &mut Sums) -> Result<(), Refusal>
    ensures fed { OnOk result (sums.new ≡ absorbed_all sums.old (links_words world.now.plain)) }
    ensures memory_only { IsOkUnless result Refusal.NoMemory }
{
    feed_contacts(world.contacts().split(), sums);
    feed_islands(world.islands(), sums);
    feed_colours(world.colours(), sums)?;
    Ok(())
}

/// The gravity, and how many steps and calls were accepted.
fn feed_counts(world: &WorldCore, sums: &mut Sums)
    ensures { sums.new ≡ absorbed_all sums.old (counts_words world.now.plain) }
{
    world.gravity().feed(sums);
    sums.natural(world.steps());
    sums.natural(world.calls());
}

/// The digest of a world: SHA-256 of the four sums of the words of its plain lists, its counts and the totals of its
/// ledger. So worlds with the same lists, counts and totals have the same digest, whatever calls they came from. Its
/// events and its entries have no part in it. It costs by the lists, which are read where they lie. Refused 1 where
/// memory is wanting, for the constraints of one colour at a time.
///
/// Worlds that differ have different digests but for chance: one in 2^64 where the difference was not made on purpose.
/// The sums are no defence against somebody who looks for two worlds with one digest.
pub fn digest(world: &WorldCore) -> Result<[u8; 32], Refusal>
    ensures digest { IfOk result (λ bytes. bytes ≡ digest_of world.now.plain (totals_of (book_of world.now))) }
    ensures memory_only { IsOkUnless result Refusal.NoMemory }
{
    let mut sums = Sums::new();
    feed_slots(world, &mut sums);
    feed_links(world, &mut sums)?;
    feed_counts(world, &mut sums);
    world.ledger().totals().feed(&mut sums);
    Ok(sums.finish())
}
