//! A world that many callers share.

ghost use Rattle.std.specs.Prelude.{◌≡◌, [], true, false, All, IfErr, IfOk, MatchResult, OnErr, OnOk, replicate};
ghost use Rattle.std.specs.Arc.{arc_value};
ghost use Rattle.std.specs.Result.{IsOkUnless};
ghost use Rattle.seat_book.specs.Seats.{newcomers};
ghost use Rattle.world_rules.specs.Sound.{IsSound};
ghost use Rattle.world_lock.specs.Journals.{beginning_at};
ghost use Rattle.world_lock.specs.Tallies.{no_calls};
ghost use Rattle.world_lock.specs.Histories.{Called, HasAll, IsClosed, Met, Misses, Refused, Shown, EventsShown, has_seat};

use crate::held::Held;
use crate::journalled::{JournalEntry, JournalledWorld};
use crate::opened::Opened;
use crate::opening::Opening;
use crate::seat::{Receipt, Seat};
use crate::tally::{Tally, no_tallies};
use fixed_geom::Refusal;
use seat_book::{Book, Keeper, Pass, Roster, open};
use std::alloc::Global;
use std::sync::{Arc, Mutex, Wait};
use world_core::{Command, Events, Frame, PieceMap, Reply, StepWorker, WorldCore, WorldLook};

/// A world that seats share. Each accepted call takes the lock, applies one command, appends one entry to the journal,
/// and gives the lock back.
#[derive(Drop)]
pub struct SharedWorld<N: Opened> {
    book: Book<N, Command, Reply>,
    lock: Mutex<Held<N>>,
}

/// What is left of a shared world that was closed.
#[derive(Drop)]
pub struct Closed {
    pub world: WorldCore,
    /// The world that the journal begins with.
    pub opening: Opening,
    /// The calls that weren't settled.
    pub journal: Vec<JournalEntry>,
    /// What each seat had done when calls were last settled.
    pub settled: Vec<Tally>,
}

/// What a shared world is made of, beside its world.
#[derive(Drop)]
struct Parts<N: Opened> {
    opening: Opening,
    book: Book<N, Command, Reply>,
    keeper: Keeper<N, Command, Reply>,
    tallies: Vec<Tally>,
    settled_tallies: Vec<Tally>,
    journal: Vec<JournalEntry>,
}

/// All that takes memory when a world is opened. Refused 1.
fn prepare<N: Opened>(
    alloc: Global,
    world: &WorldCore,
    roster: Roster<Command, Reply>,
) -> Result<(Parts<N>, Vec<Seat<N>>), Refusal>
    requires { (roster.table ≡ N.table) × (roster.seats ≡ N.seats) }
    ensures opening { IfOk result (λ r. r.0.opening ≡ beginning_at world.now) }
    ensures keeper { IfOk result (λ r. r.0.keeper ≡ []) }
    ensures tallies { IfOk result (λ r. r.0.tallies.items ≡ replicate N.seats no_calls) }
    ensures settled { IfOk result (λ r. r.0.settled_tallies.items ≡ replicate N.seats no_calls) }
    ensures journal { IfOk result (λ r. r.0.journal.items ≡ []) }
    ensures seats { IfOk result (λ r. r.1.items ≡ newcomers N.seats) }
    ensures sound { IfOk result (λ _. IsSound world.now) }
    ensures memory_only { IsOkUnless result Refusal.NoMemory }
{
    let count = roster.seats();
    let opening = Opening::at(world)?;
    let tallies = no_tallies(alloc, count)?;
    let settled_tallies = no_tallies(alloc, count)?;
    let (book, keeper, passes) = open::<N, Command, Reply>(alloc, roster)?;
    let seats = seats_of(alloc, passes)?;
    let parts = Parts {
        opening,
        book,
        keeper,
        tallies,
        settled_tallies,
        journal: Vec::new(alloc),
    };
    Ok((parts, seats))
}

/// The seats of these passes.
fn seats_of<N: Opened>(
    alloc: Global,
    passes: Vec<Pass<N, Command, Reply>>,
) -> Result<Vec<Seat<N>>, Refusal>
    ensures seats { IfOk result (λ seats. seats.items ≡ passes.items) }
    ensures memory_only { IsOkUnless result Refusal.NoMemory }
{
    let mut seats = Vec::new(alloc);
    for pass in passes {
        seats.push(Seat { pass })?;
    }
    Ok(seats)
}

impl<N: Opened> Parts<N> {
    /// The shared world of this world.
    fn share(self, world: WorldCore) -> SharedWorld<N>
        requires world { world ≡ N.opening }
        requires sound { IsSound world }
        requires opening { self.opening ≡ beginning_at world }
        requires keeper { self.keeper ≡ [] }
        requires tallies { self.tallies.items ≡ replicate N.seats no_calls }
        requires settled { self.settled_tallies.items ≡ replicate N.seats no_calls }
        requires journal { self.journal.items ≡ [] }
    {
        let Parts {
            opening,
            book,
            keeper,
            tallies,
            settled_tallies,
            journal,
        } = self;
        let journalled = JournalledWorld::new(world, opening, journal);
        let lock = Mutex::new(Held::new(journalled, tallies, settled_tallies, keeper));
        SharedWorld { book, lock }
    }
}

/// Whether the seat of this number is among these.
fn has<N: Opened>(seats: &[Seat<N>], number: u64) -> bool
    ensures { result ≡ has_seat number seats.now }
{
    for seat in seats {
        if seat.number() == number {
            return true;
        }
    }
    false
}

/// Whether the seats of all numbers below the count are among these.
fn has_all<N: Opened>(seats: &[Seat<N>], count: u64) -> bool
    ensures all { result ≡ true → HasAll count seats.now }
    ensures missing { result ≡ false → Misses count seats.now }
{
    for number in 0..count {
        if !has(seats, number) {
            return false;
        }
    }
    true
}

impl<N: Opened> SharedWorld<N> {
    /// Opens a world to the seats of a roster, which stand in the order of their numbers and have seen nothing. Refused
    /// 1 where memory is wanting, and then the world comes back as it was.
    pub fn open(
        alloc: Global,
        world: WorldCore,
        roster: Roster<Command, Reply>,
    ) -> Result<(SharedWorld<N>, Vec<Seat<N>>), (WorldCore, Refusal)>
        requires { (roster.table ≡ N.table) × (roster.seats ≡ N.seats) × (world ≡ N.opening) }
        ensures { MatchResult result (λ r. r.1.items ≡ newcomers roster.seats) (λ e. (e.0 ≡ world) × (e.1 ≡ Refusal.NoMemory)) }
    {
        match prepare(alloc, &world, roster) {
            Ok((parts, seats)) => Ok((parts.share(world), seats)),
            Err(refusal) => Err((world, refusal)),
        }
    }

    /// Makes a call through a seat. The seat has then seen one past of it, followed by just this call, which the
    /// receipt names; of a refused call it has seen the past alone, and the call takes no number. Refused as that
    /// past's world refuses the command, or 1 where memory is wanting.
    pub fn call<R: Wait>(
        &self,
        rt: &R,
        seat: &mut Seat<N>,
        command: Command,
    ) -> Result<(Reply, Receipt), Refusal>
        ensures { MatchResult result (λ r. Called N.opening seat.old command r.0 r.1 seat.new) (λ refusal. Refused N.opening seat.old command refusal seat.new) }
    {
        self.lock.lock(rt).call(&self.book, seat, command)
    }

    /// Makes a step through a seat: a call of it, its ticks run by this solver, under the lock.
    pub fn step<R: Wait, S: StepWorker + PieceMap<WorldLook>>(
        &self,
        rt: &R,
        seat: &mut Seat<N>,
        solver: &mut S,
        ticks: i64,
    ) -> Result<(Reply, Receipt), Refusal>
        ensures { MatchResult result (λ r. Called N.opening seat.old (Command.Step ticks) r.0 r.1 seat.new) (λ refusal. Refused N.opening seat.old (Command.Step ticks) refusal seat.new) }
    {
        self.lock.lock(rt).step(&self.book, seat, solver, ticks)
    }

    /// Settles the journal, which begins anew at the present world, and answers how many entries it had.
    pub fn settle<R: Wait>(&self, rt: &R) -> Result<u64, Refusal>
        ensures { IsOkUnless result Refusal.NoMemory }
    {
        let mut old = None;
        let count = self.lock.lock(rt).settle(&mut old)?;
        // The lock was given back before this.
        drop(old);
        Ok(count)
    }

    /// What the world shows, to be shared without a copy. The seat has then seen one past of it, and the frame is that
    /// of the past's world.
    pub fn frame<R: Wait>(&self, rt: &R, seat: &mut Seat<N>) -> Result<Arc<Frame, Global>, Refusal>
        ensures { MatchResult result (λ frame. Shown N.opening seat.old (arc_value frame) seat.new) (λ refusal. (refusal ≡ Refusal.NoMemory) × Met N.opening seat.old seat.new) }
    {
        self.lock.lock(rt).frame(&self.book, seat)
    }

    /// The events of the last step. The seat has then seen one past of it, and these are the events of the past's last
    /// step, or those at `open` where it has none.
    pub fn events<R: Wait>(&self, rt: &R, seat: &mut Seat<N>) -> Result<Events, Refusal>
        ensures { MatchResult result (λ events. EventsShown N.opening seat.old events seat.new) (λ refusal. (refusal ≡ Refusal.NoMemory) × Met N.opening seat.old seat.new) }
    {
        self.lock.lock(rt).events(&self.book, seat)
    }

    /// Closes the world. Refused 13 just where a seat is missing, and then all is given back.
    pub fn close(
        self,
        seats: Vec<Seat<N>>,
    ) -> Result<Closed, (SharedWorld<N>, Vec<Seat<N>>, Refusal)>
        ensures closed { IfOk result (λ c. IsClosed N.seats N.opening seats.items c.opening c.world c.journal.items c.settled.items) }
        ensures all_are_there { OnOk result (HasAll N.seats seats.items) }
        ensures given_back { IfErr result (λ e. (e.1.items ≡ seats.items) × (e.2 ≡ Refusal.WrongSeats)) }
        ensures one_is_missing { OnErr result (Misses N.seats seats.items) }
    {
        let SharedWorld { book, lock } = self;
        let held = lock.into_inner();
        if !has_all(seats.as_slice(), held.seats()) {
            let lock = Mutex::new(held);
            return Err((SharedWorld { book, lock }, seats, Refusal::WrongSeats));
        }
        Ok(held.close(&book, seats))
    }
}
