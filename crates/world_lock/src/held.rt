//! What lies under the lock.

ghost use Rattle.std.specs.Prelude.{◌≡◌, ◌⊎◌, ◌+◌, ◌<◌, ◌≤◌, [], All, Ok, Err, IfErr, IfOk, IsSomeAnd, OnErr, OnOk, MatchResult, drop, length, replicate};
ghost use Rattle.std.specs.Result.{IsOkUnless};
ghost use Rattle.world_rules.specs.Apply.{apply};
ghost use Rattle.world_rules.specs.Replay.{answer_of};
ghost use Rattle.std.specs.Arc.{arc_value};
ghost use Rattle.impulse_ledger.specs.Sums.{HaveSameTotals, total, totals_of};
ghost use Rattle.plain_world.specs.Momentum.{momentum};
ghost use Rattle.world_rules.specs.World.{book_of};
ghost use Rattle.world_lock.specs.Headline.{EachHasOneColour, EachSleepingSetIsOneComponent, EachSleepingSetIsOneIsland, EachStandsInOneSet, LinkedShareAnIsland, LinkedStandTogether, NoColourSharesAMover, OnlyAwakeMoversHaveMomentum, WhatActsIsColoured};
ghost use Rattle.world_lock.specs.Journals.{AreTotalsSince, IsLegal, booked_by, commands_of, replayed, line};
ghost use Rattle.world_lock.specs.Tallies.{no_calls};
ghost use Rattle.world_lock.specs.Histories.{Called, IsClosed, IsPastFor, Met, Refused, Shown, EventsShown, next_number, with_line, with_settled};

use crate::journalled::{JournalEntry, JournalledWorld};
use crate::opened::Opened;
use crate::seat::{Receipt, Seat};
use crate::shared::Closed;
use crate::tally::{Tally, calls_in, count_call};
use fixed_geom::Refusal;
use seat_book::{Book, Keeper};
use solver_sets::laws::ties_are_within;
use std::alloc::Global;
use std::marker::Model;
use std::sync::Arc;
use world_core::{
    Command, Events, Frame, OneThread, PieceMap, Reply, StepWorker, WorldLook, each_call_counts,
};
use world_rules::{
    colours_are_apart, linked_movers_stand_together, sleeping_sets_are_components,
    what_acts_has_a_colour,
};

/// What the lock of a shared world guards: the world with its journal, what each seat did, and the keeper of the
/// history.
#[derive(Drop)]
pub struct Held<N: Opened> {
    journalled: JournalledWorld,
    // How many calls of the history were settled.
    settled: u64,
    tallies: Vec<Tally>,
    // The tallies as they were when the last calls were settled.
    settled_tallies: Vec<Tally>,
    keeper: Keeper<N, Command, Reply>,
}

impl<N: Opened> Model for Held<N> {
    ghost use Rattle.world_lock.specs.Histories.{IsHeld, SeatStanding, standing};

    ghost Value = { SeatStanding };

    ghost view = { λ h. standing h.journalled h.settled h.tallies.items h.settled_tallies.items h.keeper };

    ghost invariant = { λ h. IsHeld N.seats N.opening (standing h.journalled h.settled h.tallies.items h.settled_tallies.items h.keeper) };
}

impl<N: Opened> Held<N> {
    /// A world that no seat has called yet.
    pub(crate) fn new(
        journalled: JournalledWorld,
        tallies: Vec<Tally>,
        settled_tallies: Vec<Tally>,
        keeper: Keeper<N, Command, Reply>,
    ) -> Held<N>
        requires world { journalled ≡ record { world = N.opening; opening = N.opening; opening_totals = totals_of (book_of N.opening); journal = [] } }
        requires tallies { tallies.items ≡ replicate N.seats no_calls }
        requires settled { settled_tallies.items ≡ replicate N.seats no_calls }
        requires keeper { keeper ≡ [] }
    {
        journalled.know_headline();
        Held {
            journalled,
            settled: 0,
            tallies,
            settled_tallies,
            keeper,
        }
    }

    /// The journal. Its contract is the headline, which holds whenever the lock is free: each body, joint and contact
    /// stands in exactly one solver set; no two constraints of a colour share a mover, what acts has a colour, and each
    /// just one; touching or jointed movers share an island, awake or asleep together; each sleeping set is one
    /// connected component, and one island that isn't loose; what isn't an awake mover has no momentum; the movers'
    /// momentum is the ledger's total; and the world is the one-thread replay of the journal from the opening world,
    /// which gives the journal's replies, and whose entries are the ledger's since the opening. Each cause's total is
    /// what it was at the opening, and with it the sum of these entries.
    pub fn headline(&self) -> &[JournalEntry]
        ensures journal { result.now ≡ self.now.journal }
        ensures each_stands_in_one_set { EachStandsInOneSet self.now.world }
        ensures no_colour_shares_a_mover { NoColourSharesAMover self.now.world }
        ensures what_acts_is_coloured { WhatActsIsColoured self.now.world }
        ensures each_has_one_colour { EachHasOneColour self.now.world }
        ensures linked_share_an_island { LinkedShareAnIsland self.now.world }
        ensures linked_stand_together { LinkedStandTogether self.now.world }
        ensures each_sleeping_set_is_one_component { EachSleepingSetIsOneComponent self.now.world }
        ensures each_sleeping_set_is_one_island { EachSleepingSetIsOneIsland self.now.world }
        ensures only_awake_movers_have_momentum { OnlyAwakeMoversHaveMomentum self.now.world }
        ensures momentum_x_is_booked { (momentum self.now.world.plain.bodies).x ≡ (total (book_of self.now.world)).x }
        ensures momentum_y_is_booked { (momentum self.now.world.plain.bodies).y ≡ (total (book_of self.now.world)).y }
        ensures is_the_replay { self.now.world ≡ replayed self.now.opening self.now.journal }
        ensures replies { IsLegal self.now.opening self.now.journal }
        ensures entries { drop (length self.now.opening.entries) self.now.world.entries ≡ booked_by self.now.opening (commands_of self.now.journal) }
        ensures totals { AreTotalsSince self.now.opening_totals (booked_by self.now.opening (commands_of self.now.journal)) self.now.world }
    {
        // What a sound world is, in the headline's words.
        colours_are_apart();
        what_acts_has_a_colour();
        ties_are_within();
        linked_movers_stand_together();
        sleeping_sets_are_components();
        self.journalled.journal()
    }

    /// A call of a seat. The world applies the command, the journal and the history grow by just the seat's next call,
    /// which its tally counts, and all else stays; the receipt names this entry. The seat has then seen all calls up to
    /// it. A refused call changes nothing and takes no number, and the seat has then seen all calls before. Refused as
    /// this world refuses the command, or 1 where memory is wanting.
    pub fn call(
        &mut self,
        book: &Book<N, Command, Reply>,
        seat: &mut Seat<N>,
        command: Command,
    ) -> Result<(Reply, Receipt), Refusal>
        ensures told { MatchResult result (λ r. Called N.opening seat.old command r.0 r.1 seat.new) (λ refusal. Refused N.opening seat.old command refusal seat.new) }
        ensures reply { IfOk result (λ r. answer_of (apply self.old.world.plain command) ≡ Ok r.0) }
        ensures done { IfOk result (λ r. self.new ≡ with_line self.old (line seat.old.seat (next_number seat.old) command r.0)) }
        ensures place { IfOk result (λ r. r.1.place ≡ self.old.settled + length self.old.journal) }
        ensures refused { IfErr result (λ refusal. (refusal ≡ Refusal.NoMemory) ⊎ (answer_of (apply self.old.world.plain command) ≡ Err refusal)) }
        ensures err { OnErr result (self.new ≡ self.old) }
    {
        self.call_by(book, seat, &mut OneThread, command)
    }

    /// A step of a seat: a call of it, its ticks run by this solver.
    pub fn step<S: StepWorker + PieceMap<WorldLook>>(
        &mut self,
        book: &Book<N, Command, Reply>,
        seat: &mut Seat<N>,
        solver: &mut S,
        ticks: i64,
    ) -> Result<(Reply, Receipt), Refusal>
        ensures told { MatchResult result (λ r. Called N.opening seat.old (Command.Step ticks) r.0 r.1 seat.new) (λ refusal. Refused N.opening seat.old (Command.Step ticks) refusal seat.new) }
        ensures reply { IfOk result (λ r. answer_of (apply self.old.world.plain (Command.Step ticks)) ≡ Ok r.0) }
        ensures done { IfOk result (λ r. self.new ≡ with_line self.old (line seat.old.seat (next_number seat.old) (Command.Step ticks) r.0)) }
        ensures place { IfOk result (λ r. r.1.place ≡ self.old.settled + length self.old.journal) }
        ensures refused { IfErr result (λ refusal. (refusal ≡ Refusal.NoMemory) ⊎ (answer_of (apply self.old.world.plain (Command.Step ticks)) ≡ Err refusal)) }
        ensures err { OnErr result (self.new ≡ self.old) }
    {
        self.call_by(book, seat, solver, Command::Step(ticks))
    }

    /// A call of a seat, with this solver for the ticks of a step.
    fn call_by<S: StepWorker + PieceMap<WorldLook>>(
        &mut self,
        book: &Book<N, Command, Reply>,
        seat: &mut Seat<N>,
        solver: &mut S,
        command: Command,
    ) -> Result<(Reply, Receipt), Refusal>
        ensures told { MatchResult result (λ r. Called N.opening seat.old command r.0 r.1 seat.new) (λ refusal. Refused N.opening seat.old command refusal seat.new) }
        ensures reply { IfOk result (λ r. answer_of (apply self.old.world.plain command) ≡ Ok r.0) }
        ensures done { IfOk result (λ r. self.new ≡ with_line self.old (line seat.old.seat (next_number seat.old) command r.0)) }
        ensures place { IfOk result (λ r. r.1.place ≡ self.old.settled + length self.old.journal) }
        ensures refused { IfErr result (λ refusal. (refusal ≡ Refusal.NoMemory) ⊎ (answer_of (apply self.old.world.plain command) ≡ Err refusal)) }
        ensures err { OnErr result (self.new ≡ self.old) }
    {
        each_call_counts();
        let impulse = command.impulse();
        let receipt = Receipt {
            seat: seat.number(),
            number: calls_in(&self.tallies, seat.number()) + 1,
            place: self.settled + self.journalled.journal().len() as u64,
        };
        match self
            .journalled
            .call(solver, receipt.seat, receipt.number, command)
        {
            Ok(reply) => {
                count_call(&mut self.tallies, receipt.seat, impulse);
                let journal = self.journalled.journal();
                let entry = &journal[journal.len() - 1];
                book.enter(&mut self.keeper, &mut seat.pass, &entry.call);
                Ok((reply, receipt))
            }
            Err(refusal) => {
                book.meet(&mut self.keeper, &mut seat.pass);
                Err(refusal)
            }
        }
    }

    /// Begins a new journal at the present world, and answers how many entries the old one had, which is put into
    /// `old`, so that the caller drops it where it likes. The ledger's entries are settled, and no total changes.
    /// Refused 1 with nothing changed where memory is wanting.
    pub fn settle(&mut self, old: &mut Option<Vec<JournalEntry>>) -> Result<u64, Refusal>
        ensures settled { OnOk result (self.new ≡ with_settled self.old) }
        ensures totals { OnOk result (HaveSameTotals (book_of self.new.world) (book_of self.old.world)) }
        ensures count { IfOk result (λ count. count ≡ length self.old.journal) }
        ensures journal { OnOk result (IsSomeAnd old.new (λ journal. journal.items ≡ self.old.journal)) }
        ensures err { OnErr result (self.new ≡ self.old) }
        ensures memory_only { IsOkUnless result Refusal.NoMemory }
    {
        let journal = self.journalled.settle()?;
        let count = journal.len() as u64;
        self.settled += count;
        self.settled_tallies.copy_from_slice(&self.tallies);
        *old = Some(journal);
        Ok(count)
    }

    /// What the world shows, as the seat then has seen it, to be shared without a copy.
    pub fn frame(
        &mut self,
        book: &Book<N, Command, Reply>,
        seat: &mut Seat<N>,
    ) -> Result<Arc<Frame, Global>, Refusal>
        ensures told { MatchResult result (λ frame. Shown N.opening seat.old (arc_value frame) seat.new) (λ refusal. (refusal ≡ Refusal.NoMemory) × Met N.opening seat.old seat.new) }
        ensures same { self.new ≡ self.old }
    {
        book.meet(&mut self.keeper, &mut seat.pass);
        let frame = self.journalled.world().frame()?;
        Ok(Arc::new(*self.tallies.allocator(), frame)?)
    }

    /// The events of the world's last step, as the seat then has seen it.
    pub fn events(
        &mut self,
        book: &Book<N, Command, Reply>,
        seat: &mut Seat<N>,
    ) -> Result<Events, Refusal>
        ensures told { MatchResult result (λ events. EventsShown N.opening seat.old events seat.new) (λ refusal. (refusal ≡ Refusal.NoMemory) × Met N.opening seat.old seat.new) }
        ensures same { self.new ≡ self.old }
    {
        book.meet(&mut self.keeper, &mut seat.pass);
        self.journalled.world().events().try_copy()
    }

    /// How many seats there are.
    pub(crate) fn seats(&self) -> u64
        ensures { result ≡ N.seats }
    {
        self.tallies.len() as u64
    }

    /// All seats meet the history, and the world is closed.
    pub(crate) fn close(self, book: &Book<N, Command, Reply>, seats: Vec<Seat<N>>) -> Closed
        ensures { IsClosed N.seats N.opening seats.items result.opening result.world result.journal.items result.settled.items }
    {
        let Held {
            journalled,
            settled: _,
            tallies: _,
            settled_tallies,
            mut keeper,
        } = self;
        meet_all(book, &mut keeper, seats);
        let (world, opening, journal) = journalled.into_parts();
        Closed {
            world,
            opening,
            journal,
            settled: settled_tallies,
        }
    }
}

/// Each of these seats meets the history.
fn meet_all<N: Opened>(
    book: &Book<N, Command, Reply>,
    keeper: &mut Keeper<N, Command, Reply>,
    seats: Vec<Seat<N>>,
)
    ensures pasts { All (IsPastFor N.seats keeper.old) seats.items }
    ensures same { keeper.new ≡ keeper.old }
{
    for mut seat in seats {
        seat.know_seated();
        book.meet(keeper, &mut seat.pass);
    }
}
