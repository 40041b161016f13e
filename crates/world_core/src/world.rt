//! The world: what it keeps, and its invariant.

mod bodies;
mod enabling;
mod joints;
mod loading;
mod reading;
mod saving;
mod sleeping;
mod snapshots;
mod standing;
mod steps;

ghost use Rattle.std.specs.Prelude.{◌≡◌, ◌^◌, IfOk, nat_le};
ghost use Rattle.std.specs.Result.{IsOkUnless};
ghost use Rattle.impulse_ledger.specs.Sums.{HaveSameTotals};
ghost use Rattle.world_rules.specs.World.{book_of};
ghost use Rattle.world_core.specs.Frames.{with_ledger_settled};
ghost use Rattle.world_rules.specs.Sound.{IsSound};
ghost use Rattle.world_rules.specs.Apply.{Answers, IsMade, empty_world, gravity_refusal, apply};

use crate::activity::Activity;
use crate::parts::{copy_body_parts, copy_constraint_parts, copy_joint_parts, copy_records};
use crate::scratch::Scratch;
use crate::step_worker::{OneThread, StepWorker, WorldLook};
use body_handles::Handles;
use contacts::ContactTable;
use crew::PieceMap;
use event_feed::Events;
use fixed_geom::{Refusal, Vec2, ZERO_VECTOR, is_within};
use impulse_ledger::Ledger;
use sleep_wake::Sets;
use std::alloc::Global;
use std::marker::Model;
pub use steps::is_tick_count;
use world_core_base::{
    BodyTable, Constraints, GatheredRows, JointTable, SleepingSets, list_contacts_asleep,
};
use world_rules::{Command, MAX_CALLS, Reply};

/// The greatest size of a component of gravity, in u/tick².
const MAX_GRAVITY: u64 = momenta::MAX_GRAVITY as u64;

/// A world of bodies, changed by one command at a time.
#[derive(Drop)]
pub struct WorldCore {
    handles: Handles,
    joint_handles: Handles,
    activity: Activity,
    // The joints and the contacts. These tell which shapes are near, but for those of the bodies that the table marks.
    constraints: Constraints,
    // The rows of a step by colour, and their memory, which is kept from step to step.
    gathered: GatheredRows,
    // Lists that a step fills, whose memory is kept from step to step.
    scratch: Scratch,
    gravity: Vec2,
    steps: u64,
    calls: u64,
    ledger: Ledger,
    events: Events,
}

impl Model for WorldCore {
    ghost use Rattle.world_rules.specs.World.{World};

    ghost Value = { World };

    ghost use Rattle.world_core.specs.Inside.{IsWorldCore, world_of};

    ghost view = { λ a. world_of a };

    ghost invariant = { λ a. IsWorldCore (world_of a) a.activity.sets.acting a.activity.bodies.marks a.activity.joint_sets a.constraints.contacts.numbered a.activity.contact_sets };
}

impl WorldCore {
    /// An empty world with this gravity, in u/tick². Refused 5 where a component is beyond 2^16 in size, else 1 where
    /// memory is wanting.
    pub fn new(alloc: Global, gravity: Vec2) -> Result<WorldCore, Refusal>
        ensures made { IsMade (gravity_refusal gravity) (empty_world gravity) result }
        ensures empty { IfOk result (λ world. world ≡ empty_world gravity) }
    {
        if !is_within(gravity, MAX_GRAVITY) {
            return Err(Refusal::OutOfRange);
        }
        Ok(WorldCore {
            handles: Handles::new(alloc),
            joint_handles: Handles::new(alloc),
            activity: Activity {
                bodies: BodyTable::new(alloc),
                sets: Sets::new(alloc)?,
                joint_sets: SleepingSets::new(alloc),
                contact_sets: SleepingSets::new(alloc),
            },
            constraints: Constraints {
                joints: JointTable::new(alloc),
                contacts: ContactTable::new(alloc),
            },
            gathered: GatheredRows::new(alloc),
            scratch: Scratch::new(alloc),
            gravity,
            steps: 0,
            calls: 0,
            ledger: Ledger::new(alloc),
            events: Events::new(alloc),
        })
    }

    /// A copy of its own.
    pub fn try_copy(&self) -> Result<WorldCore, Refusal>
        ensures copy { IfOk result (λ copied. copied ≡ self.now) }
        ensures memory_only { IsOkUnless result Refusal.NoMemory }
    {
        let alloc = self.activity.bodies.allocator();
        let records = copy_records(&self.ledger, &self.events)?;
        let joints = copy_joint_parts(
            &self.joint_handles,
            &self.constraints.joints,
            &self.activity.bodies,
        )?;
        let bodies = copy_body_parts(&self.handles, &self.activity.bodies)?;
        let constraints = copy_constraint_parts(
            &self.constraints.contacts,
            &self.activity.sets,
            alloc,
        )?;
        // The copy numbers its contacts anew, so that their sets are listed and not copied.
        let contact_sets = list_contacts_asleep(
            alloc,
            self.activity.bodies.bodies(),
            &constraints.contacts,
        )?;
        Ok(WorldCore {
            handles: bodies.handles,
            joint_handles: joints.handles,
            activity: Activity {
                bodies: bodies.table,
                sets: constraints.sets,
                joint_sets: joints.sets,
                contact_sets,
            },
            constraints: Constraints {
                joints: joints.table,
                contacts: constraints.contacts,
            },
            gathered: GatheredRows::new(alloc),
            scratch: Scratch::new(alloc),
            gravity: self.gravity,
            steps: self.steps,
            calls: self.calls,
            ledger: records.ledger,
            events: records.events,
        })
    }

    /// Applies one command, or refuses it and changes nothing.
    pub fn apply(&mut self, command: &Command) -> Result<Reply, Refusal>
        ensures { Answers (apply self.old.plain command.now) self.old result self.new }
    {
        self.apply_by(&mut OneThread, command)
    }

    /// The same, with this solver to run the ticks of a step, on one thread or on many.
    pub fn apply_by<S: StepWorker + PieceMap<WorldLook>>(
        &mut self,
        solver: &mut S,
        command: &Command,
    ) -> Result<Reply, Refusal>
        ensures { Answers (apply self.old.plain command.now) self.old result self.new }
    {
        if self.calls >= MAX_CALLS {
            return Err(Refusal::WornOut);
        }
        match command {
            Command::CreateBody(def) => self.create_body(def),
            Command::DestroyBody(handle) => self.destroy_body(*handle),
            Command::CreateJoint(def) => self.create_joint(def),
            Command::DestroyJoint(handle) => self.destroy_joint(*handle),
            Command::Push(handle, by) => self.push(*handle, *by, ZERO_VECTOR),
            Command::PushAt(handle, by, offset) => self.push(*handle, *by, *offset),
            Command::SetPose(handle, pose) => self.set_pose(*handle, *pose),
            Command::SetVelocity(handle, course) => self.set_velocity(*handle, *course),
            Command::SetGravity(gravity) => self.set_gravity(*gravity),
            Command::Disable(handle) => self.disable(*handle),
            Command::Enable(handle) => self.enable(*handle),
            Command::Wake(handle) => self.wake(*handle),
            Command::Sleep(handle) => self.sleep(*handle),
            Command::Step(ticks) => self.step(solver, *ticks),
        }
    }

    /// Lets 1 to 8 ticks pass: `apply` of a step. Refused 10 or 5.
    pub fn step_one(&mut self, ticks: i64) -> Result<Reply, Refusal>
        ensures { Answers (apply self.old.plain (Command.Step ticks)) self.old result self.new }
    {
        self.apply(&Command::Step(ticks))
    }

    /// The same, its ticks run by this solver.
    pub fn step_by<S: StepWorker + PieceMap<WorldLook>>(
        &mut self,
        solver: &mut S,
        ticks: i64,
    ) -> Result<Reply, Refusal>
        ensures { Answers (apply self.old.plain (Command.Step ticks)) self.old result self.new }
    {
        self.apply_by(solver, &Command::Step(ticks))
    }

    /// Whether it accepted so many calls that it refuses each further one 10.
    pub fn is_worn_out(&self) -> bool
        ensures { result ≡ nat_le (2 ^ 40) self.now.plain.calls }
    {
        self.calls >= MAX_CALLS
    }

    /// The world is sound: its type keeps that. The function does nothing; its contract is the law.
    pub fn know_sound(&self)
        ensures { IsSound self.now }
    {
        let _ = &self.handles;
    }

    /// Drops the entries of the ledger, which are added to the settled sums. The plain world, the events and each total
    /// stay, and no memory is taken.
    pub fn settle_ledger(&mut self)
        ensures settled { self.new ≡ with_ledger_settled self.old }
        ensures totals { HaveSameTotals (book_of self.new) (book_of self.old) }
    {
        self.ledger.settle();
    }
}
