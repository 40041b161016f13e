//! The caller's side of a piece that is handed out.

ghost use Rattle.std.specs.Prelude.{◌≡◌, ◌++◌, ◌+◌, ◌≤◌, false, true, length, vec_len, vec_capacity};
ghost use Rattle.std.specs.Arc.{arc_value};
ghost use Rattle.crossbeam_queue.specs.Passes.{view, IsPassOf};
ghost use Rattle.crew.specs.Answers.{AreAccepted, answers, owed, promised, returned};
ghost use Rattle.crew.specs.Mailbox.{is_asked};

use crate::gate::PieceNumber;
use crate::post::{MailboxPass, Post};
use crate::slip::Slip;
use crate::stack::stack_last;
use crate::{Gate, Work};
use std::alloc::Global;
use std::mem;
use std::sync::{Arc, Wait};

/// The mailbox of a piece with the caller's pass, the slip once it is back, and the two lists that go with a slip and
/// come back.
pub(crate) struct Desk<W: Work + Drop>
where
    W::Item: Drop,
    W::Out: Drop,
{
    pub(crate) alloc: Global,
    pub(crate) post: Arc<Post<W>, Global>,
    pub(crate) pass: MailboxPass<W>,
    pub(crate) asked: bool,
    pub(crate) back: Option<Slip<W>>,
    pub(crate) stack: Vec<W::Item>,
    pub(crate) answers: Vec<W::Out>,
    pub ghost fits: { IsPassOf (arc_value post).mailbox pass },
    pub ghost leads: { (view pass).leads ≡ true },
    pub ghost same: { is_asked (view pass).ask ≡ asked },
}

impl<W: Work + Drop> Drop for Desk<W>
where
    W::Item: Drop,
    W::Out: Drop,
{
    fn drop(self) {
        let Self {
            alloc: _,
            post: _,
            pass: _,
            asked: _,
            back: _,
            stack: _,
            answers: _,
        } = self;
    }
}

impl<W: Work + Drop> Desk<W>
where
    W::Item: Drop,
    W::Out: Drop,
{
    /// Hands the last `count` items out, if memory allows it: else they stay with the caller.
    pub(crate) fn post<R: Wait>(
        &mut self,
        rt: &R,
        work: &Arc<W, Global>,
        piece: PieceNumber,
        items: &mut Vec<W::Item>,
        count: usize,
    )
        requires many { count ≤ vec_len items.old }
        requires idle { self.old.asked ≡ false }
        requires accepted { AreAccepted W.accepts (arc_value work.now) items.old.items }
        ensures promised { answers W.answer (arc_value work.now) items.new.items ++ promised (view self.new.pass).ask (returned (λ s. owed W.answer (arc_value s.work) s.stack.items s.answers.items) self.new.back) ≡ answers W.answer (arc_value work.now) items.old.items }
        ensures accepted { AreAccepted W.accepts (arc_value work.now) items.new.items }
        ensures capacity { vec_capacity items.new ≡ vec_capacity items.old }
    {
        self.back = None;
        self.stack.clear();
        self.answers.clear();
        let Ok(work) = Arc::try_clone(work) else {
            return;
        };
        if self.stack.reserve(count).is_err() || self.answers.reserve(count).is_err() {
            return;
        }
        stack_last(items, &mut self.stack, count);
        let slip = Slip {
            work,
            piece,
            entered: false,
            stack: mem::replace(&mut self.stack, Vec::new(self.alloc)),
            answers: mem::replace(&mut self.answers, Vec::new(self.alloc)),
        };
        self.post.ask(rt, &mut self.pass, slip);
        self.asked = true;
    }

    /// Fetches the slip if it lies in the mailbox, and works it if nobody has. Answers whether nothing is awaited any
    /// more.
    pub(crate) fn fetch<R: Wait, G: Gate>(&mut self, rt: &R, gate: &G) -> bool
        ensures promised { promised (view self.new.pass).ask (returned (λ s. owed W.answer (arc_value s.work) s.stack.items s.answers.items) self.new.back) ≡ promised (view self.old.pass).ask (returned (λ s. owed W.answer (arc_value s.work) s.stack.items s.answers.items) self.old.back) }
        ensures back { result ≡ true → returned (λ s. owed W.answer (arc_value s.work) s.stack.items s.answers.items) self.new.back ≡ promised (view self.old.pass).ask (returned (λ s. owed W.answer (arc_value s.work) s.stack.items s.answers.items) self.old.back) }
        ensures idle { result ≡ true → self.new.asked ≡ false }
    {
        if !self.asked {
            return true;
        }
        match self.post.get(&mut self.pass) {
            None => false,
            Some(slip) => {
                self.asked = false;
                self.back = Some(slip.worked(rt, gate));
                true
            }
        }
    }

    /// Adds the answers of the slip that is back to `out`, which has room for them.
    pub(crate) fn collect<R: Wait>(&mut self, rt: &R, out: &mut Vec<W::Out>)
        requires room { vec_len out.old + length (returned (λ s. owed W.answer (arc_value s.work) s.stack.items s.answers.items) self.old.back) ≤ vec_capacity out.old }
        ensures out { out.new.items ≡ out.old.items ++ returned (λ s. owed W.answer (arc_value s.work) s.stack.items s.answers.items) self.old.back }
        ensures capacity { vec_capacity out.old ≤ vec_capacity out.new }
    {
        if let Some(slip) = self.back.take() {
            let (stack, answers) = slip.finish(rt, out);
            self.stack = stack;
            self.answers = answers;
        }
    }
}
