//! The definitions of a world give the values that were worked by hand.

ghost use Rattle.std.specs.Prelude.{◌≡◌, ◌+◌, [], ◌∷◌, Some, Ok, Err, true, pos, neg_ℤ, replicate};
ghost use Rattle.fixed_geom.specs.declared.refusal.Refusal.TheVariants.{OutOfRange, NotAMover};
ghost use Rattle.impulse_ledger.specs.declared.entry.Cause.TheVariants.{Departed, Gravity};
ghost use Rattle.plain_world.specs.declared.kind.Kind.TheVariants.{Static, Dynamic};
ghost use Rattle.event_feed.specs.Events.{no_events};
ghost use Rattle.graph_colours.specs.declared.limits.TheConstants.{COLOURS};
ghost use Rattle.world_rules.specs.declared.command.Command.TheVariants.{Step};
ghost use Rattle.world_rules.specs.declared.command.Reply.TheVariants.{Stepped};
ghost use Rattle.world_rules.specs.Apply.{apply, empty_world, pushed, departed, booked};

/// The definitions give the same values, computed by themselves: the empty step, refused steps and pushes.
#[tactic(auto, unfolding(contacts_base::specs::ByPairs::contacts_between, plain_world::specs::Sleep::told, solver_sets::specs::Beside::timers_of, solver_sets::specs::Slept::asleep_only_in, solver_sets::specs::Ties::key_changes, solver_sets::specs::Ties::members_of, solver_sets::specs::Ties::ties_of, world_core_base::specs::Solving::solved, world_rules::specs::Collide::contacts_after, world_rules::specs::Sets::acting_of))]
fn definitions_compute()
    ensures stepped { apply (empty_world (record { x = pos 0; y = pos 0 })).plain (Step (pos 4)) ≡ Ok (record { plain = record { slot_entries = []; bodies = []; joint_entries = []; joints = []; contacts = []; islands = []; colours = replicate (COLOURS + 1) []; gravity = record { x = pos 0; y = pos 0 }; steps = 1; calls = 1 }; reply = Stepped 1; entries = []; events = Some no_events }) }
    ensures no_ticks { apply (empty_world (record { x = pos 0; y = pos 0 })).plain (Step (pos 0)) ≡ Err OutOfRange }
    ensures nine_ticks { apply (empty_world (record { x = pos 0; y = pos 0 })).plain (Step (pos 9)) ≡ Err OutOfRange }
    ensures pushed { pushed (Some (record { kind = Dynamic; mass = record { mass = pos 1; inertia = pos 0 }; motion = record { p = record { x = pos 5; y = pos 0 }; l = pos 0; x = record { x = pos 0; y = pos 0 }; rot = record { c = pos 1073741824; s = pos 0 } }; shapes = []; fats = []; timer = 0; enabled = true; asleep = None })) (record { x = pos 7; y = neg_ℤ (pos 3) }) (record { x = pos 0; y = pos 0 }) ≡ Ok (record { p = record { x = pos 12; y = neg_ℤ (pos 3) }; l = pos 0 }) }
    ensures far { pushed (Some (record { kind = Dynamic; mass = record { mass = pos 1; inertia = pos 0 }; motion = record { p = record { x = pos 5; y = pos 0 }; l = pos 0; x = record { x = pos 0; y = pos 0 }; rot = record { c = pos 1073741824; s = pos 0 } }; shapes = []; fats = []; timer = 0; enabled = true; asleep = None })) (record { x = pos 1099511627777; y = pos 0 }) (record { x = pos 0; y = pos 0 }) ≡ Err OutOfRange }
    ensures standing { pushed (Some (record { kind = Static; mass = record { mass = pos 1; inertia = pos 0 }; motion = record { p = record { x = pos 5; y = pos 0 }; l = pos 0; x = record { x = pos 0; y = pos 0 }; rot = record { c = pos 1073741824; s = pos 0 } }; shapes = []; fats = []; timer = 0; enabled = true; asleep = None })) (record { x = pos 1099511627777; y = pos 0 }) (record { x = pos 0; y = pos 0 }) ≡ Err NotAMover }
    ensures departed { departed 3 (record { kind = Dynamic; mass = record { mass = pos 1; inertia = pos 0 }; motion = record { p = record { x = pos 5; y = pos 0 }; l = pos 0; x = record { x = pos 0; y = pos 0 }; rot = record { c = pos 1073741824; s = pos 0 } }; shapes = []; fats = []; timer = 0; enabled = true; asleep = None }) ≡ record { call = 3; cause = Departed; x = neg_ℤ (pos 5); y = neg_ℤ (pos 0) } ∷ [] }
    ensures booked { booked 3 Gravity (pos 0) (neg_ℤ (pos 160768)) ≡ record { call = 3; cause = Gravity; x = pos 0; y = neg_ℤ (pos 160768) } ∷ [] }
    ensures left_out { booked 3 Gravity (pos 0) (pos 0) ≡ [] }
{}
