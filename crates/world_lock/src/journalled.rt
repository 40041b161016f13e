//! A world with the journal of its calls, of which it is the replay.

ghost use Rattle.std.specs.Prelude.{◌≡◌, ◌⊎◌, ◌≤◌, [], ◌∷◌, ◌++◌, Ok, Err, IfOk, OnOk, OnErr, MatchResult, length};
ghost use Rattle.std.specs.Result.{IsOkUnless};
ghost use Rattle.impulse_ledger.specs.Sums.{HaveSameTotals, totals_of};
ghost use Rattle.world_rules.specs.World.{book_of};
ghost use Rattle.world_rules.specs.Apply.{apply};
ghost use Rattle.world_core.specs.Frames.{with_ledger_settled};
ghost use Rattle.world_rules.specs.Replay.{after, answer_of};
ghost use Rattle.world_rules.specs.Sound.{IsSound};
ghost use Rattle.world_lock.specs.Journals.{KeepsHeadline, beginning_at, journalled, line};

use crate::opening::Opening;
use fixed_geom::Refusal;
use seat_book::{Call, Entry};
use std::marker::Model;
use std::mem;
use world_core::{Command, PieceMap, Reply, StepWorker, WorldCore, WorldLook};

/// An accepted call: its seat, which of the seat's calls it is, what was asked, and what was answered.
pub type JournalEntry = Entry<Command, Reply>;

/// A world, with the calls that it accepted since its journal began. Whenever it is whole, the headline holds of it:
/// the world is sound, it is the one-thread replay of the journal from the world that the journal began with, and each
/// cause's total is the one that its ledger had then, with what the journal's calls added.
#[derive(Drop)]
pub struct JournalledWorld {
    world: WorldCore,
    opening: Opening,
    journal: Vec<JournalEntry>,
}

impl Model for JournalledWorld {
    ghost use Rattle.world_lock.specs.Journals.{IsJournalled, Journalled, journalled};

    ghost Value = { Journalled };

    ghost view = { λ a. journalled a.opening a.world a.journal.items };

    ghost invariant = { λ a. IsJournalled a.opening a.world a.journal.items };
}

/// What the world answers to a command, the ticks of a step run by this solver; it is sound whatever it answers.
fn applied<S: StepWorker + PieceMap<WorldLook>>(
    world: &mut WorldCore,
    solver: &mut S,
    command: &Command,
) -> Result<Reply, Refusal>
    ensures answer { MatchResult result (λ reply. (answer_of (apply world.old.plain command.now) ≡ Ok reply) × (world.new ≡ after world.old command.now)) (λ refusal. (world.new ≡ world.old) × ((refusal ≡ Refusal.NoMemory) ⊎ (answer_of (apply world.old.plain command.now) ≡ Err refusal))) }
    ensures sound { IsSound world.new }
{
    let answer = world.apply_by(solver, command);
    world.know_sound();
    answer
}

impl JournalledWorld {
    /// A world whose journal begins now, at `opening`.
    pub(crate) fn new(
        world: WorldCore,
        opening: Opening,
        journal: Vec<JournalEntry>,
    ) -> JournalledWorld
        requires opening { opening ≡ beginning_at world }
        requires sound { IsSound world }
        requires journal { journal.items ≡ [] }
        ensures { result ≡ record { world = world; opening = world; opening_totals = totals_of (book_of world); journal = [] } }
    {
        JournalledWorld {
            world,
            opening,
            journal,
        }
    }

    /// The world.
    pub fn world(&self) -> &WorldCore
        ensures { result.now ≡ self.now.world }
    {
        &self.world
    }

    /// The calls that were accepted since the journal began, in their order.
    pub fn journal(&self) -> &[JournalEntry]
        ensures journal { result.now ≡ self.now.journal }
        ensures headline { KeepsHeadline self.now }
    {
        self.journal.as_slice()
    }

    /// The headline holds: the type keeps it. The function does nothing; its contract is the law.
    pub(crate) fn know_headline(&self)
        ensures { KeepsHeadline self.now }
    {
        let _ = &self.journal;
    }

    /// A call of a seat: the world applies the command, with this solver for the ticks of a step, and the journal grows
    /// by just this. A refusal changes nothing; the room for the journal's entry is made before all else, so want of it
    /// is answered first.
    pub fn call<S: StepWorker + PieceMap<WorldLook>>(
        &mut self,
        solver: &mut S,
        seat: u64,
        number: u64,
        command: Command,
    ) -> Result<Reply, Refusal>
        ensures { MatchResult result (λ reply. (answer_of (apply self.old.world.plain command) ≡ Ok reply) × (self.new ≡ record { world = after self.old.world command; opening = self.old.opening; opening_totals = self.old.opening_totals; journal = self.old.journal ++ line seat number command reply ∷ [] })) (λ refusal. (self.new ≡ self.old) × ((refusal ≡ Refusal.NoMemory) ⊎ (answer_of (apply self.old.world.plain command) ≡ Err refusal))) }
    {
        self.journal.reserve(1)?;
        let reply = applied(&mut self.world, solver, &command)?;
        let call = Call {
            number,
            command,
            reply,
        };
        self.journal.push_reserved(Entry { seat, call });
        Ok(reply)
    }

    /// Begins a new journal at the present world, whose ledger's entries are settled, and gives the old one. Refused 1
    /// with nothing changed where memory is wanting.
    #[tactic(auto, using(crate::proofs::Replaying::begun_settled))]
    pub fn settle(&mut self) -> Result<Vec<JournalEntry>, Refusal>
        ensures settled { OnOk result (self.new ≡ record { world = with_ledger_settled self.old.world; opening = with_ledger_settled self.old.world; opening_totals = totals_of (book_of self.old.world); journal = [] }) }
        ensures totals { OnOk result (HaveSameTotals (book_of self.new.world) (book_of self.old.world)) }
        ensures journal { IfOk result (λ journal. journal.items ≡ self.old.journal) }
        ensures err { OnErr result (self.new ≡ self.old) }
        ensures memory_only { IsOkUnless result Refusal.NoMemory }
    {
        let opening = Opening::at(&self.world)?;
        self.world.settle_ledger();
        self.world.know_sound();
        self.opening = opening.settled();
        let empty = Vec::new(*self.journal.allocator());
        Ok(mem::replace(&mut self.journal, empty))
    }

    /// Ends the journal: the world, the opening world, and the journal.
    pub fn into_parts(self) -> (WorldCore, Opening, Vec<JournalEntry>)
        ensures parts { journalled result.1 result.0 result.2.items ≡ self }
        ensures headline { KeepsHeadline self }
    {
        let JournalledWorld {
            world,
            opening,
            journal,
        } = self;
        (world, opening, journal)
    }
}
