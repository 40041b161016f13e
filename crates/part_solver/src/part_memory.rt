//! What the workers of one step leave to those of the next.

ghost use Rattle.std.specs.Prelude.{◌≡◌, IfSome};
ghost use Rattle.part_solver.specs.Parts.{AreDealt};
ghost use Rattle.part_solver.specs.Stages.{AreStages, lists_of};

use crate::dealing::{Counts, Deal};
use crate::homes::are_dealt;
use crate::step_memory::StepMemory;
use crate::sums::MOST_PARTS;
use crate::work_guess::guess_work;
use graph_colours::Colours;
use momenta::BodyState;
use plain_world::Constraint;
use std::alloc::Global;
use world_core_base::Constraints;

/// With fewer constraints no step is worth its workers, and none need be started for it.
pub const LEAST_CONSTRAINTS: usize = 3_000;

/// The least work, as `guess_work` counts it, of a step that is worth its workers: with less, the calling thread solves
/// it alone.
const LEAST_WORK: usize = 9_500;

/// The fewest workers that are worth it: what a step by parts costs before it begins is more than a second worker
/// saves.
pub const LEAST_PARTS: u64 = 3;

/// For how many steps at most the calling thread solves alone after one that wasn't worth it.
const LONGEST_REST: u32 = 64;

/// After so many good steps in turn the rests are short again.
const GOOD_STEPS: u32 = 4;

/// So many long waits of a step tell that its threads don't run side by side. Some waits are long too where each thread
/// has a processor.
const MANY_WAITS: u32 = 160;

/// The most bodies that a ring has room for.
const MOST_ROOM: usize = 4_096;

/// What a crew knows of the steps that were made, and the lists that it works with. The next crew goes on with them.
#[derive(Drop)]
pub struct PartMemory {
    pub(crate) deal: Deal,
    pub(crate) lists: StepMemory,
    rest: u32,
    next_rest: u32,
    good: u32,
    all_steps: bool,
    /// Whether the last step was worth its workers.
    was_worth: bool,
}

/// Whether few rows of a step wait for bodies of other parts.
fn is_loose(counts: Counts) -> bool {
    counts.waiting <= counts.all / 10 && counts.left <= counts.all / 16
}

/// For how many bodies a ring needs room. Only bodies of rows that wait go from part to part, each once before a stage.
fn room_for(counts: Counts) -> usize {
    counts.waiting.saturating_mul(2).saturating_add(1)
}

impl PartMemory {
    /// No step is known, and the lists have no room.
    pub fn new(alloc: Global) -> PartMemory {
        PartMemory {
            deal: Deal::new(alloc),
            lists: StepMemory::new(alloc),
            rest: 0,
            next_rest: 1,
            good: 0,
            all_steps: false,
            was_worth: false,
        }
    }

    /// The same of a crew that solves each step by parts, whether it is worth its workers or not.
    pub fn for_all_steps(alloc: Global) -> PartMemory {
        let mut memory = PartMemory::new(alloc);
        memory.all_steps = true;
        memory.was_worth = true;
        memory
    }

    /// Whether the last step was worth its workers, or each is to be solved by parts.
    pub fn was_worth(&self) -> bool {
        self.was_worth
    }

    /// Whether the next step is one of those that the calling thread solves alone, since one before wasn't worth its
    /// workers. It is counted then.
    pub fn take_rest(&mut self) -> bool {
        if self.rest == 0 {
            return false;
        }
        self.rest -= 1;
        true
    }

    /// Whether a step is to be looked at: there are workers enough, and no rest is to be taken.
    fn is_due(&mut self, parts: usize) -> bool {
        self.all_steps || (parts as u64 >= LEAST_PARTS && !self.take_rest())
    }

    /// Rests for a time, the longer the oftener that happens.
    fn rest(&mut self) {
        self.rest = self.next_rest;
        self.next_rest = self.next_rest.saturating_mul(2).min(LONGEST_REST);
        self.good = 0;
    }

    /// Heeds how many waits of a step were long: then the threads don't run side by side.
    pub(crate) fn heed(&mut self, long_waits: u32) {
        if long_waits >= MANY_WAITS {
            self.rest();
            return;
        }
        self.good = self.good.saturating_add(1);
        if self.good >= GOOD_STEPS {
            self.next_rest = 1;
        }
    }

    /// Whether the step is worth so many workers: it is work enough, and few of its constraints wait for bodies of
    /// other parts. They are listed then, and it is answered for how many bodies each ring needs room.
    pub(crate) fn is_worth(
        &mut self,
        states: &[BodyState],
        constraints: &Constraints,
        colours: &Colours<Constraint>,
        awake: &[u32],
        parts: usize,
    ) -> Option<usize>
        requires flushed { colours.now.pending ≡ 0 }
        ensures dealt { IfSome result (λ room. AreDealt self.new.deal.home.items parts states.now) }
        ensures lists { IfSome result (λ room. lists_of self.new.lists.stages.items ≡ colours.now.lists) }
        ensures stages { IfSome result (λ room. AreStages constraints.now.joints.joints self.new.lists.stages.items) }
    {
        self.was_worth = self.all_steps;
        if parts < 2 || parts > MOST_PARTS || !self.is_due(parts) {
            return None;
        }
        let work = guess_work(colours, constraints.contacts.split(), awake.len());
        if work < LEAST_WORK && !self.all_steps {
            return None;
        }
        let joints = constraints.joints.joints();
        if self.lists.list_stages(joints, colours).is_err() {
            return None;
        }
        let counts = self.deal.settle(&self.lists.stages, states, awake, parts)?;
        let room = room_for(counts);
        let is_good = self.all_steps || is_loose(counts);
        if is_good && room <= MOST_ROOM && are_dealt(&self.deal.home, parts, states) {
            self.was_worth = true;
            return Some(room);
        }
        self.rest();
        None
    }
}
