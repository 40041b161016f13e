//! The names under which joints and contacts sleep, and items that wake or fall asleep as their bodies have.

ghost use Rattle.std.specs.Prelude.{◌≡◌, ◌<◌, ℕ, None, Some, length};
ghost use Rattle.world_core_base.specs.Asleep.{asleep_under, sleep_with};
ghost use Rattle.world_core_base.specs.Following.{followed, placed, woken_unless};
ghost use Rattle.world_core_base.specs.Sleeping.{sleep_at};

use crate::SleepingSets;
use graph_colours::Movers;
use plain_world::{Body, item_at};

/// The name under which the body in a slot sleeps, if one is there and does.
fn asleep_under(bodies: &[Option<Body>], slot: u32) -> Option<u32>
    ensures { result ≡ asleep_under bodies.now slot }
{
    match item_at(bodies, slot as usize) {
        None => None,
        Some(body) => body.asleep,
    }
}

/// The name under which what has these movers sleeps: that of the first.
pub(crate) fn sleep_with(bodies: &[Option<Body>], movers: Option<Movers>) -> Option<u32>
    ensures { result ≡ sleep_with bodies.now movers }
{
    match movers {
        None => None,
        Some(movers) => asleep_under(bodies, movers.first),
    }
}

/// Puts an item that doesn't sleep under the name under which it is to, if it is to.
pub(crate) fn place(sets: &mut SleepingSets, id: u32, now: Option<u32>)
    requires awake { sleep_at sets.old.names id ≡ None }
    requires below { (name : ℕ) → now ≡ Some name → id < length sets.old.names }
    requires named { (name : ℕ) → now ≡ Some name → name < length sets.old.sets }
    ensures names { sets.new.names ≡ placed now id sets.old.names }
    ensures sets { length sets.new.sets ≡ length sets.old.sets }
{
    if let Some(name) = now {
        sets.insert(name, id);
    }
}

/// Wakes the set of a name, if an item of it is to be awake.
fn wake_if(sets: &mut SleepingSets, name: u32, now: Option<u32>)
    ensures names { sets.new.names ≡ woken_unless name now sets.old.names }
    ensures sets { length sets.new.sets ≡ length sets.old.sets }
{
    if now.is_none() {
        sets.wake(name);
    }
}

/// Lets an item wake with all of its set, or fall asleep, as it is to.
#[tactic(auto, unfolding(crate::specs::Following::followed))]
pub(crate) fn follow(sets: &mut SleepingSets, id: u32, now: Option<u32>)
    requires below { (name : ℕ) → now ≡ Some name → id < length sets.old.names }
    requires named { (name : ℕ) → now ≡ Some name → name < length sets.old.sets }
    ensures names { sets.new.names ≡ followed now id sets.old.names }
    ensures sets { length sets.new.sets ≡ length sets.old.sets }
{
    match sets.name_of(id) {
        None => place(sets, id, now),
        Some(name) => wake_if(sets, name, now),
    }
}
