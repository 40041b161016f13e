//! A map by threads that are started for it and joined.

ghost use Rattle.std.specs.Prelude.{◌≡◌, ◌≤◌, ◌<◌, [], length, vec_capacity, IfErr, IfOk, OnOk};
ghost use Rattle.std.specs.List.{flat_map};
ghost use Rattle.crew.specs.Answers.{AreAccepted, answers};
ghost use Rattle.crew.specs.Refusals.{IsStartRefusal};
ghost use Rattle.fixed_geom.specs.declared.refusal.Refusal.TheVariants.{NoMemory, NoThread};

use crate::gate::PieceNumber;
use crate::{Gate, Work};
use fixed_geom::Refusal;
use std::alloc::{AllocError, Global};
use std::sync::Wait;
use std::thread;
use std::thread::{Promise, PromisedHandle, Scope, Threads};

/// The answers that are asked for: the work's at these items. The thread of a piece promises those of its own.
struct AnswersAt<'a, W: Work> {
    work: &'a W,
    items: &'a [W::Item],
}

impl<'a, W: Work> Drop for AnswersAt<'a, W> {
    fn drop(self) {
        let Self { work: _, items: _ } = self;
    }
}

impl<'a, W: Work> Promise<Result<Vec<W::Out>, AllocError>> for AnswersAt<'a, W> {
    ghost kept_by = { λ p r. IfOk r (λ v. v.items ≡ answers W.answer p.work.now p.items.now) };
}

type Answers<W> = Result<Vec<<W as Work>::Out>, AllocError>;

type Piece<'a, W> = PromisedHandle<Answers<W>, AnswersAt<'a, W>>;

/// The answers at the items of a piece.
fn map_piece<R: Wait, W: Work>(
    rt: &R,
    alloc: Global,
    work: &W,
    items: &[W::Item],
) -> Result<Vec<W::Out>, AllocError>
where
    W::Item: Copy,
    W::Out: Drop,
    requires { AreAccepted W.accepts work.now items.now }
    ensures { IfOk result (λ v. v.items ≡ answers W.answer work.now items.now) }
{
    let mut out = Vec::with_capacity(alloc, items.len())?;
    for item in items {
        out.push(work.work(rt, *item))?;
    }
    Ok(out)
}

/// What the thread of a piece runs.
fn run_piece<R: Wait, G: Gate, W: Work>(
    rt: &R,
    alloc: Global,
    gate: &G,
    piece: PieceNumber,
    work: &W,
    items: &[W::Item],
) -> Result<Vec<W::Out>, AllocError>
where
    W::Item: Copy,
    W::Out: Drop,
    requires { AreAccepted W.accepts work.now items.now }
    ensures { IfOk result (λ v. v.items ≡ answers W.answer work.now items.now) }
{
    gate.enter(rt, piece.number, piece.of);
    map_piece(rt, alloc, work, items)
}

/// Starts a thread for each piece. At a refusal some of them run.
fn start_all<'s, E, R: Threads + Wait + Sync, G: Gate + Sync, W: Work + Sync>(
    scope: &Scope<'s, E>,
    rt: &'s R,
    gate: &'s G,
    of: usize,
    asked: AnswersAt<'s, W>,
    pieces: &mut Vec<Piece<'s, W>>,
) -> Result<(), Refusal>
where
    W::Item: Copy + Sync,
    W::Out: Send + Drop + 's,
    requires of { (0 < of) × (of ≤ length asked.items.now) }
    requires empty { pieces.old.items ≡ [] }
    requires room { of ≤ vec_capacity pieces.old }
    requires accepted { AreAccepted W.accepts asked.work.now asked.items.now }
    ensures answers { OnOk result (flat_map (λ h. answers W.answer h.promise.work.now h.promise.items.now) pieces.new.items ≡ answers W.answer asked.entry.work.now asked.entry.items.now) }
    ensures refused { IfErr result (λ e. e ≡ NoThread) }
{
    let alloc = *pieces.allocator();
    let work = asked.work;
    let mut rest = asked.items;
    for piece in 0..of {
        let (front, back) = rest.split_at(rest.len() / (of - piece));
        let promise = AnswersAt { work, items: front };
        match scope.spawn_with(promise, move || {
            run_piece(
                rt,
                alloc,
                gate,
                PieceNumber { number: piece, of },
                work,
                front,
            )
        }) {
            Ok(handle) => pieces.push_reserved(handle),
            Err(_) => return Err(Refusal::NoThread),
        }
        rest = back;
    }
    Ok(())
}

/// Joins each thread and puts what they answered one behind the other.
fn join_all<'s, R: Threads, W: Work>(
    rt: &R,
    pieces: Vec<Piece<'s, W>>,
    mut out: Vec<W::Out>,
) -> Result<Vec<W::Out>, Refusal>
where
    W::Out: Drop,
    requires empty { out.items ≡ [] }
    ensures answers { IfOk result (λ v. v.items ≡ flat_map (λ h. answers W.answer h.promise.work.now h.promise.items.now) pieces.entry.items) }
    ensures refused { IfErr result (λ e. e ≡ NoMemory) }
{
    let mut refused = false;
    for piece in pieces {
        match piece.join(rt) {
            Ok(mut answers) => {
                if out.append(&mut answers).is_err() {
                    refused = true;
                }
            }
            Err(_) => refused = true,
        }
    }
    if refused {
        Err(Refusal::NoMemory)
    } else {
        Ok(out)
    }
}

/// Runs the pieces in threads of the scope, and joins each that was started.
fn run_all<'s, E, R: Threads + Wait + Sync, G: Gate + Sync, W: Work + Sync>(
    scope: &Scope<'s, E>,
    rt: &'s R,
    alloc: Global,
    gate: &'s G,
    of: usize,
    asked: AnswersAt<'s, W>,
) -> Result<Vec<W::Out>, Refusal>
where
    W::Item: Copy + Sync,
    W::Out: Send + Drop + 's,
    requires of { (0 < of) × (of ≤ length asked.items.now) }
    requires accepted { AreAccepted W.accepts asked.work.now asked.items.now }
    ensures answers { IfOk result (λ v. v.items ≡ answers W.answer asked.entry.work.now asked.entry.items.now) }
    ensures refused { IfErr result IsStartRefusal }
{
    let out = Vec::with_capacity(alloc, asked.items.len())?;
    let mut pieces = Vec::with_capacity(alloc, of)?;
    let started = start_all(scope, rt, gate, of, asked, &mut pieces);
    let joined = join_all(rt, pieces, out);
    started?;
    joined
}

/// The work's answers at the items, in their order.
///
/// The items fall into consecutive pieces, as many as there are workers, but no more than there are items. Each is
/// mapped by a thread of its own, which enters the gate first. Refused 1 where memory is wanting, and 11 where a thread
/// can't be started; what runs is joined before, and what it answered is dropped.
pub fn map_pieces<R: Threads + Wait + Sync, G: Gate + Sync, W: Work + Sync>(
    rt: &R,
    alloc: Global,
    gate: &G,
    items: &[W::Item],
    workers: usize,
    work: &W,
) -> Result<Vec<W::Out>, Refusal>
where
    W::Item: Copy + Sync,
    W::Out: Send + Drop,
    requires workers { 1 ≤ workers }
    requires accepted { AreAccepted W.accepts work.now items.now }
    ensures answers { IfOk result (λ v. v.items ≡ answers W.answer work.now items.now) }
    ensures refused { IfErr result IsStartRefusal }
{
    let of = workers.min(items.len());
    if of == 0 {
        return Ok(Vec::new(alloc));
    }
    thread::scope(
        thread::scope_env(),
        rt,
        |scope| -> Result<Vec<W::Out>, Refusal>
            requires { (0 < of) × (of ≤ length items.now) × AreAccepted W.accepts work.now items.now }
            ensures { IfOk result (λ v. v.items ≡ answers W.answer work.entry.now items.entry.now) × IfErr result IsStartRefusal }
        { run_all(scope, rt, alloc, gate, of, AnswersAt { work, items }) },
    )
}
