//! The parts of a map in pieces.

ghost use Rattle.std.specs.Prelude.{◌≡◌, ◌++◌, ◌+◌, ◌≤◌, [], false, true, All, length, vec_len, vec_capacity};
ghost use Rattle.std.specs.Arc.{arc_value};
ghost use Rattle.crossbeam_queue.specs.Passes.{view};
ghost use Rattle.crew.specs.Answers.{AreAccepted, answers, gathered, owed, promised, returned};

use crate::bell::pause;
use crate::desk::Desk;
use crate::gate::PieceNumber;
use crate::stack::work_stack;
use crate::{Gate, Work};
use crossbeam_utils::sync::Parker;
use std::alloc::Global;
use std::sync::{Arc, Wait};

/// Hands a piece out at each desk, from the last one on; `piece` is the first desk's. What is left of the items is the
/// caller's piece.
pub(crate) fn post_all<R: Wait, W: Work + Drop>(
    rt: &R,
    desks: &mut [Desk<W>],
    work: &Arc<W, Global>,
    piece: PieceNumber,
    items: &mut Vec<W::Item>,
)
where
    W::Item: Drop,
    W::Out: Drop,
    requires idle { All (λ d. d.asked ≡ false) desks.old }
    requires accepted { AreAccepted W.accepts (arc_value work.now) items.old.items }
    ensures promised { answers W.answer (arc_value work.now) items.new.items ++ gathered desks.new (λ d. promised (view d.pass).ask (returned (λ s. owed W.answer (arc_value s.work) s.stack.items s.answers.items) d.back)) ≡ answers W.answer (arc_value work.now) items.old.items }
    ensures accepted { AreAccepted W.accepts (arc_value work.now) items.new.items }
    ensures capacity { vec_capacity items.new ≡ vec_capacity items.old }
{
    match desks.split_first_mut() {
        None => {}
        Some((first, rest)) => {
            let number = piece.number.saturating_add(1);
            let next = PieceNumber {
                number,
                of: piece.of,
            };
            post_all(rt, rest, work, next, items);
            let count = items.len() / number;
            first.post(rt, work, piece, items, count);
        }
    }
}

/// Fetches each slip that lies in its mailbox, those first that were handed out first. Answers whether nothing is
/// awaited any more.
fn fetch_all<R: Wait, G: Gate, W: Work + Drop>(rt: &R, gate: &G, desks: &mut [Desk<W>]) -> bool
where
    W::Item: Drop,
    W::Out: Drop,
    ensures promised { gathered desks.new (λ d. promised (view d.pass).ask (returned (λ s. owed W.answer (arc_value s.work) s.stack.items s.answers.items) d.back)) ≡ gathered desks.old (λ d. promised (view d.pass).ask (returned (λ s. owed W.answer (arc_value s.work) s.stack.items s.answers.items) d.back)) }
    ensures back { result ≡ true → gathered desks.new (λ d. returned (λ s. owed W.answer (arc_value s.work) s.stack.items s.answers.items) d.back) ≡ gathered desks.old (λ d. promised (view d.pass).ask (returned (λ s. owed W.answer (arc_value s.work) s.stack.items s.answers.items) d.back)) }
    ensures idle { result ≡ true → All (λ d. d.asked ≡ false) desks.new }
{
    match desks.split_first_mut() {
        None => true,
        Some((first, rest)) => {
            let are_rest = fetch_all(rt, gate, rest);
            let is_first = first.fetch(rt, gate);
            are_rest && is_first
        }
    }
}

/// Fetches all slips, and waits for those that are in a worker's hands.
pub(crate) fn gather<R: Wait, G: Gate, W: Work + Drop>(
    rt: &R,
    gate: &G,
    parker: &Parker,
    desks: &mut [Desk<W>],
)
where
    W::Item: Drop,
    W::Out: Drop,
    ensures back { gathered desks.new (λ d. returned (λ s. owed W.answer (arc_value s.work) s.stack.items s.answers.items) d.back) ≡ gathered desks.old (λ d. promised (view d.pass).ask (returned (λ s. owed W.answer (arc_value s.work) s.stack.items s.answers.items) d.back)) }
    ensures idle { All (λ d. d.asked ≡ false) desks.new }
{
    let mut looks = 0;
    for _ in rt.forever() {
        if fetch_all(rt, gate, desks) {
            return;
        }
        looks = pause(rt, parker, looks);
    }
    unreachable!()
}

/// Adds the answers of all slips that are back to `out`, which has room for them.
pub(crate) fn collect_all<R: Wait, W: Work + Drop>(
    rt: &R,
    desks: &mut [Desk<W>],
    out: &mut Vec<W::Out>,
)
where
    W::Item: Drop,
    W::Out: Drop,
    requires room { vec_len out.old + length (gathered desks.old (λ d. returned (λ s. owed W.answer (arc_value s.work) s.stack.items s.answers.items) d.back)) ≤ vec_capacity out.old }
    ensures out { out.new.items ≡ out.old.items ++ gathered desks.old (λ d. returned (λ s. owed W.answer (arc_value s.work) s.stack.items s.answers.items) d.back) }
    ensures capacity { vec_capacity out.old ≤ vec_capacity out.new }
{
    match desks.split_first_mut() {
        None => {}
        Some((first, rest)) => {
            first.collect(rt, out);
            collect_all(rt, rest, out);
        }
    }
}

/// Works all items on this thread.
pub(crate) fn work_alone<R: Wait, W: Work>(
    rt: &R,
    work: &W,
    items: &mut Vec<W::Item>,
    out: &mut Vec<W::Out>,
)
    requires accepted { AreAccepted W.accepts work.now items.old.items }
    requires room { vec_len out.old + vec_len items.old ≤ vec_capacity out.old }
    ensures out { out.new.items ≡ out.old.items ++ answers W.answer work.now items.old.items }
    ensures items { items.new.items ≡ [] }
    ensures kept { vec_capacity items.new ≡ vec_capacity items.old }
    ensures capacity { vec_capacity out.old ≤ vec_capacity out.new }
{
    items.reverse();
    work_stack(rt, work, items, out);
}

/// A map of one piece, or of none.
pub(crate) fn map_alone<R: Wait, G: Gate, W: Work>(
    rt: &R,
    gate: &G,
    work: &W,
    items: &mut Vec<W::Item>,
    out: &mut Vec<W::Out>,
)
    requires accepted { AreAccepted W.accepts work.now items.old.items }
    requires room { vec_len out.old + vec_len items.old ≤ vec_capacity out.old }
    ensures out { out.new.items ≡ out.old.items ++ answers W.answer work.now items.old.items }
    ensures items { items.new.items ≡ [] }
    ensures kept { vec_capacity items.new ≡ vec_capacity items.old }
    ensures capacity { vec_capacity out.old ≤ vec_capacity out.new }
{
    if !items.is_empty() {
        gate.enter(rt, 0, 1);
    }
    work_alone(rt, work, items, out);
}
