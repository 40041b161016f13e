//! The crew that stays: threads that wait for one map after another.

ghost use Rattle.std.specs.Prelude.{◌≡◌, ◌++◌, ◌+◌, ◌≤◌, [], true, vec_len, vec_capacity, IfErr, OnOk};
ghost use Rattle.std.specs.Arc.{arc_value};
ghost use Rattle.crew.specs.Answers.{AreAccepted, answers};
ghost use Rattle.crew.specs.Refusals.{are_workers, MayRefuseStart};
ghost use Rattle.fixed_geom.specs.declared.refusal.Refusal.TheVariants.{NoThread};

use crate::bell::{Bell, OVER, next_round};
use crate::desk::Desk;
use crate::furnish::furnish_all;
use crate::gate::PieceNumber;
use crate::round::{collect_all, gather, map_alone, post_all, work_alone};
use crate::worker::Worker;
use crate::{Gate, Work};
use crossbeam_utils::sync::Parker;
use fixed_geom::Refusal;
use std::alloc::Global;
use std::sync::{Arc, Wait};
use std::thread;
use std::thread::{JoinHandle, Scope, Threads};

/// How many workers a crew has at most.
const MOST_WORKERS: usize = 64;

/// How a crew is made.
#[derive(Clone, Copy)]
pub struct CrewDef {
    // How many work, of which the caller is one.
    pub workers: usize,
    // How many items a piece has at least.
    pub least: usize,
    // For how many items each piece has room at first.
    pub room: usize,
}

/// The caller and a number of threads that wait for its maps. Its type sees to it that it is ended: it can't be let go
/// otherwise.
pub struct Crew<'s, G, W: Work + Drop>
where
    W::Item: Drop,
    W::Out: Drop,
{
    alloc: Global,
    gate: &'s G,
    least: usize,
    parker: Parker,
    bell: Arc<Bell, Global>,
    round: u64,
    desks: Vec<Desk<W>>,
    threads: Vec<JoinHandle<()>>,
}

/// The value, once nobody else has it.
pub fn sole<R: Wait, W>(rt: &R, shared: Arc<W, Global>) -> W
    ensures { result ≡ arc_value shared }
{
    let mut shared = shared;
    for _ in rt.forever() {
        match Arc::try_unwrap(shared) {
            Ok(value) => return value,
            Err(back) => shared = back,
        }
        thread::yield_now();
    }
    unreachable!()
}

impl<'s, G: Gate, W: Work + Drop> Crew<'s, G, W>
where
    W::Item: Drop,
    W::Out: Drop,
{
    /// Takes the items out of their list, which keeps its memory, and adds the work's answers at them, in their order,
    /// to `out`, which has room for them.
    ///
    /// The items fall into consecutive pieces, one for the caller and for each worker, or fewer where there are too few
    /// items for so many. Each is worked by whoever is free and enters the gate first; the caller works those that no
    /// worker has begun when it is done with its own. A map of one piece stays on the calling thread. Lists that go
    /// with the pieces are kept from map to map, and grow where a piece has more items than any before. Where memory is
    /// wanting for a piece, the caller works it: the map is never refused.
    pub fn map_with<R: Wait>(
        &mut self,
        rt: &R,
        work: &Arc<W, Global>,
        items: &mut Vec<W::Item>,
        out: &mut Vec<W::Out>,
    )
        requires accepted { AreAccepted W.accepts (arc_value work.now) items.old.items }
        requires room { vec_len out.old + vec_len items.old ≤ vec_capacity out.old }
        ensures answers { out.new.items ≡ out.old.items ++ answers W.answer (arc_value work.now) items.old.items }
        ensures items { items.new.items ≡ [] }
        ensures kept { vec_capacity items.new ≡ vec_capacity items.old }
        ensures capacity { vec_capacity out.old ≤ vec_capacity out.new }
    {
        let pieces = items.len() / self.least.max(1);
        let workers = self.desks.len().min(pieces.saturating_sub(1));
        if workers == 0 {
            map_alone(rt, self.gate, &**work, items, out);
            return;
        }
        self.map_shared(rt, workers, work, items, out);
    }

    /// A map in pieces by the caller and so many workers. The caller works the first piece, and then those that no
    /// worker has begun.
    fn map_shared<R: Wait>(
        &mut self,
        rt: &R,
        workers: usize,
        work: &Arc<W, Global>,
        items: &mut Vec<W::Item>,
        out: &mut Vec<W::Out>,
    )
        requires workers { workers ≤ vec_len self.old.desks }
        requires accepted { AreAccepted W.accepts (arc_value work.now) items.old.items }
        requires room { vec_len out.old + vec_len items.old ≤ vec_capacity out.old }
        ensures answers { out.new.items ≡ out.old.items ++ answers W.answer (arc_value work.now) items.old.items }
        ensures items { items.new.items ≡ [] }
        ensures kept { vec_capacity items.new ≡ vec_capacity items.old }
        ensures capacity { vec_capacity out.old ≤ vec_capacity out.new }
    {
        self.round = next_round(self.round);
        let of = workers.saturating_add(1);
        let (desks, _) = self.desks.as_mut_slice().split_at_mut(workers);
        gather(rt, self.gate, &self.parker, desks);
        post_all(rt, desks, work, PieceNumber { number: 1, of }, items);
        self.bell.ring(self.round);
        self.gate.enter(rt, 0, of);
        work_alone(rt, &**work, items, out);
        gather(rt, self.gate, &self.parker, desks);
        collect_all(rt, desks, out);
    }

    /// The same by work that it takes and gives back.
    pub fn map<R: Wait>(
        &mut self,
        rt: &R,
        work: W,
        items: &mut Vec<W::Item>,
        out: &mut Vec<W::Out>,
    ) -> W
        requires accepted { AreAccepted W.accepts work items.old.items }
        requires room { vec_len out.old + vec_len items.old ≤ vec_capacity out.old }
        ensures answers { out.new.items ≡ out.old.items ++ answers W.answer work items.old.items }
        ensures items { items.new.items ≡ [] }
        ensures kept { vec_capacity items.new ≡ vec_capacity items.old }
        ensures capacity { vec_capacity out.old ≤ vec_capacity out.new }
        ensures work { result ≡ work }
    {
        match Arc::new(self.alloc, work) {
            Err(failed) => {
                map_alone(rt, self.gate, &failed.value, items, out);
                failed.value
            }
            Ok(shared) => {
                self.map_with(rt, &shared, items, out);
                sole(rt, shared)
            }
        }
    }

    /// Ends the threads and joins them.
    pub fn end<R: Threads>(self, rt: &R) {
        let Crew {
            alloc: _,
            gate: _,
            least: _,
            parker: _,
            bell,
            round: _,
            desks: _,
            threads,
        } = self;
        bell.ring(OVER);
        for thread in threads {
            thread.join(rt);
        }
    }
}

/// Starts the workers. At a refusal some of them run.
fn hire_all<'s, E, R: Threads + Wait + Sync, G: Gate + Sync, W: Work + Drop + Send + Sync + 's>(
    scope: &Scope<'s, E>,
    rt: &'s R,
    gate: &'s G,
    workers: Vec<Worker<W>>,
    threads: &mut Vec<JoinHandle<()>>,
) -> Result<(), Refusal>
where
    W::Item: Drop + Send + 's,
    W::Out: Drop + Send + 's,
    requires room { vec_len threads.old + vec_len workers ≤ vec_capacity threads.old }
    ensures refused { IfErr result (λ e. e ≡ NoThread) }
{
    for worker in workers {
        match scope.spawn(move || { worker.serve(rt, gate) }) {
            Ok(thread) => threads.push_reserved(thread),
            Err(_) => return Err(Refusal::NoThread),
        }
    }
    Ok(())
}

/// Starts a crew of the caller and `def.workers` - 1 threads in the scope. Refused 5 where the workers aren't from 1 to
/// 64, 1 where memory is wanting, both before any thread is started, and 11 where a thread can't be started: those that
/// run are then ended and joined.
pub fn start<'s, E, R: Threads + Wait + Sync, G: Gate + Sync, W: Work + Drop + Send + Sync + 's>(
    scope: &Scope<'s, E>,
    rt: &'s R,
    alloc: Global,
    gate: &'s G,
    def: CrewDef,
) -> Result<Crew<'s, G, W>, Refusal>
where
    W::Item: Drop + Send + 's,
    W::Out: Drop + Send + 's,
    ensures limits { OnOk result (are_workers def.workers ≡ true) }
    ensures refused { IfErr result (MayRefuseStart def.workers) }
{
    if def.workers == 0 || def.workers > MOST_WORKERS {
        return Err(Refusal::OutOfRange);
    }
    let parker = Parker::new(alloc)?;
    let bell = Arc::new(alloc, Bell::new(parker.unparker().clone()?))?;
    let (desks, hired) = furnish_all(alloc, &bell, def.workers - 1, def.room)?;
    let threads = Vec::with_capacity(alloc, hired.len())?;
    let mut crew = Crew {
        alloc,
        gate,
        least: def.least,
        parker,
        bell,
        round: 0,
        desks,
        threads,
    };
    match hire_all(scope, rt, gate, hired, &mut crew.threads) {
        Ok(()) => Ok(crew),
        Err(refused) => {
            crew.end(rt);
            Err(refused)
        }
    }
}
