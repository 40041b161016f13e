//! A crowd: seats of a shared world that call at once, and what is left of them.

ghost use Rattle.std.specs.Prelude.{◌≡◌};

use crate::calls::new_world;
use crate::crowd_threads::{CrowdPlan, call_at_once};
use fixed_geom::Refusal;
use impulse_ledger::Total;
use seat_book::Roster;
use std::alloc::Global;
use std::marker::Brand;
use std::mem;
use std::sync::Wait;
use std::thread::Threads;
use world_core::{Command, Reply, WorldCore};
use world_lock::{Closed, JournalEntry, Opened, Seat, SharedWorld};
use world_script_base::SeatReport;

/// What a crowd left: how many calls were accepted, and what each seat did, in the order of the seats' numbers.
#[derive(Drop)]
pub(crate) struct Report {
    pub journal: u64,
    pub seats: Vec<SeatReport>,
}

const NO_CALLS: SeatReport = SeatReport {
    accepted: 0,
    pushed: Total { x: 0, y: 0 },
};

fn no_calls(alloc: Global, threads: u64) -> Result<Vec<SeatReport>, Refusal> {
    let mut seats = Vec::new(alloc);
    for _seat in 0..threads {
        seats.push(NO_CALLS)?;
    }
    Ok(seats)
}

/// Counts a call of the journal to its seat.
fn count(seats: &mut [SeatReport], entry: &JournalEntry) {
    if let Some(seat) = seats.get_mut(entry.seat as usize) {
        let by = entry.call.command.impulse();
        seat.accepted = seat.accepted.saturating_add(1);
        seat.pushed.x = seat.pushed.x.saturating_add(i128::from(by.x));
        seat.pushed.y = seat.pushed.y.saturating_add(i128::from(by.y));
    }
}

fn count_all(seats: &mut [SeatReport], journal: &[JournalEntry]) {
    for entry in journal {
        count(seats, entry);
    }
}

/// What is left of a crowd: the world, the calls that it accepted, and what the crowd is refused.
#[derive(Drop)]
struct Left {
    world: Option<WorldCore>,
    journal: Vec<JournalEntry>,
    answer: Result<(), Refusal>,
}

impl Left {
    /// What is left of a shared world that was closed.
    fn of(closed: Closed, answer: Result<(), Refusal>) -> Left {
        let Closed {
            world,
            opening: _,
            journal,
            settled: _,
        } = closed;
        Left {
            world: Some(world),
            journal,
            answer,
        }
    }

    /// What is left where no calls were made.
    fn uncalled(alloc: Global, world: Option<WorldCore>, refusal: Refusal) -> Left {
        Left {
            world,
            journal: Vec::new(alloc),
            answer: Err(refusal),
        }
    }

    /// Puts the world back in its place, counts the calls to their seats, and answers how many there were.
    fn settle(self, place: &mut WorldCore, seats: &mut [SeatReport]) -> Result<u64, Refusal> {
        let Left {
            world,
            journal,
            answer,
        } = self;
        if let Some(world) = world {
            *place = world;
        }
        count_all(seats, journal.as_slice());
        match answer {
            Ok(()) => Ok(journal.len() as u64),
            Err(refusal) => Err(refusal),
        }
    }
}

/// Lets the seats call, and closes the world.
fn gather<N: Opened + Send + Sync, R: Threads + Wait + Sync>(
    rt: &R,
    shared: SharedWorld<N>,
    mut seats: Vec<Seat<N>>,
    crowd: CrowdPlan,
) -> Left {
    let answer = call_at_once(rt, &shared, seats.as_mut_slice(), crowd);
    match shared.close(seats) {
        Ok(closed) => Left::of(closed, answer),
        // It can't be: the seats were lent to the threads, and are all back.
        Err((_, _, refusal)) => Left::uncalled(crowd.alloc, None, refusal),
    }
}

/// Opens the world to a crowd. Where it can't be opened it comes back as it was.
fn share<N: Opened + Send + Sync, R: Threads + Wait + Sync>(
    rt: &R,
    world: WorldCore,
    roster: Roster<Command, Reply>,
    crowd: CrowdPlan,
) -> Left
    requires { (roster.table ≡ N.table) × (roster.seats ≡ N.seats) × (world ≡ N.opening) }
{
    match SharedWorld::<N>::open(crowd.alloc, world, roster) {
        Ok((shared, seats)) => gather(rt, shared, seats, crowd),
        Err((world, refusal)) => Left::uncalled(crowd.alloc, Some(world), refusal),
    }
}

/// Lets as many seats call as there are reports, and answers how many calls were accepted.
fn share_out<R: Threads + Wait + Sync>(
    rt: &R,
    place: &mut WorldCore,
    crowd: CrowdPlan,
    seats: &mut Vec<SeatReport>,
) -> Result<u64, Refusal> {
    let roster = Roster::new(crowd.alloc, seats.len() as u64)?;
    let spare = new_world(crowd.alloc)?;
    let world = mem::replace(place, spare);
    let left = share::<Brand, R>(rt, world, roster, crowd);
    left.settle(place, seats.as_mut_slice())
}

/// So many threads make the crowd's calls. Refused 1, with nothing changed, where memory is wanting, and 11 where a
/// thread can't be started; where a thread's own workers can't, as their start is. The calls of the threads that ran
/// stand then.
pub(crate) fn crowd<R: Threads + Wait + Sync>(
    rt: &R,
    world: &mut WorldCore,
    crowd: CrowdPlan,
    threads: u64,
) -> Result<Report, Refusal> {
    let mut seats = no_calls(crowd.alloc, threads)?;
    let journal = share_out(rt, world, crowd, &mut seats)?;
    Ok(Report { journal, seats })
}
