//! The work of a part.

ghost use Rattle.std.specs.Prelude.{◌≡◌};
ghost use Rattle.part_solver.specs.Benches.{HasSeen, IsRoomyFor};
ghost use Rattle.part_solver.specs.Parts.{solved};

use crate::run::run;
use crate::seat::{Lists, Part, Seat};
use crate::seeing::{see_all_slots, see_bodies, see_slots};
use crate::step_lists::StepLists;
use crate::walk::walk;
use part_runs::laws::bodies_are_hidden;
use std::sync::Wait;

/// Fills the lists of a part with what it sees of its step.
fn see(step: &StepLists, number: u32, lists: &mut Lists)
    requires { IsRoomyFor step.now lists.old }
    ensures { HasSeen step.now number lists.new }
{
    bodies_are_hidden();
    step.know();
    see_bodies(step.states(), step.home(), number, &mut lists.states);
    see_slots(step.awake(), step.home(), number, &mut lists.awake);
    see_all_slots(step.carried(), &mut lists.carried);
    see_all_slots(step.home(), &mut lists.at);
}

impl Seat {
    /// Runs the part of its step. It waits for those that the others run.
    pub fn work<R: Wait>(self, rt: &R) -> Part
        ensures { result ≡ solved self }
    {
        let Seat {
            step: shared,
            lent,
            number,
            mut lists,
            mut ports,
        } = self;
        let step = &*shared;
        see(step, number, &mut lists);
        walk(step, &*lent, number, &mut lists);
        let outcome = run(rt, step, number, &mut lists, &mut ports);
        Part {
            number,
            lists,
            sums: outcome.sums,
            long_waits: outcome.long_waits,
        }
    }
}
