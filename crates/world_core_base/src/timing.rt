//! For how long each awake mover has been slow.

ghost use Rattle.std.specs.Prelude.{◌≡◌, ◌<◌, ◌≤◌, ◌^◌, None, length, option_map, slice_index_or, slice_set};
ghost use Rattle.std.specs.Option.{ForSome};
ghost use Rattle.colour_solver.specs.States.{places_from};
ghost use Rattle.plain_world.specs.Bodies.{AreBodies};
ghost use Rattle.plain_world.specs.Changes.{is_awake_in};
ghost use Rattle.plain_world.specs.Sleep.{timed, timed_bodies};
ghost use Rattle.plain_world.specs.InSlots.{AreTimersWithin};
ghost use Rattle.world_core_base.specs.Timing.{CanTime};

use plain_world::Body;

fn time_entry(entry: &mut Option<Body>, ticks: u64)
    requires body { ForSome entry.old CanTime }
    requires ticks { ticks ≤ 2 ^ 44 }
    ensures { entry.new ≡ option_map (timed ticks) entry.old }
{
    if let Some(body) = entry {
        body.time(ticks);
    }
}

fn time_slot(bodies: &mut Vec<Option<Body>>, slot: usize, ticks: u64)
    requires slot { slot < length bodies.old.items }
    requires body { ForSome (slice_index_or bodies.old.items slot None) CanTime }
    requires ticks { ticks ≤ 2 ^ 44 }
    ensures { bodies.new.items ≡ slice_set bodies.old.items slot (option_map (timed ticks) (slice_index_or bodies.old.items slot None)) }
{
    time_entry(&mut bodies[slot], ticks);
}

/// Lets so many ticks pass for the awake movers, whose slots are `awake`.
pub(crate) fn time_bodies(bodies: &mut Vec<Option<Body>>, awake: &[u32], ticks: u64)
    requires bodies { AreBodies bodies.old.items }
    requires timers { AreTimersWithin (2 ^ 44) bodies.old.items }
    requires ticks { ticks ≤ 2 ^ 44 }
    requires awake { awake.now ≡ places_from is_awake_in 0 bodies.old.items }
    ensures { bodies.new.items ≡ timed_bodies ticks bodies.old.items }
{
    for place in 0..awake.len() {
        time_slot(bodies, awake[place] as usize, ticks);
    }
}
