//! The mailbox of a piece, between the caller and the workers. Slips go through it both ways.

ghost use Rattle.std.specs.Prelude.{◌≡◌, true, false, Some, None, IfSome, MatchOption};
ghost use Rattle.std.specs.Arc.{arc_value};
ghost use Rattle.crossbeam_queue.specs.Passes.{view, IsPassOf};
ghost use Rattle.crew.specs.Answers.{owed};
ghost use Rattle.crew.specs.Mailbox.{hand, is_asked};

use crate::Work;
use crate::rule::{Asked, Begins, Ends, Hand, OneSlip};
use crate::slip::Slip;
use crossbeam_queue::{Pass, RuledArrayQueue};
use std::sync::Wait;
use std::sync::atomic::{AtomicU64, Ordering};
use std::thread;

pub(crate) type Mailbox<W> = RuledArrayQueue<Slip<W>, Hand<Asked<W>>, OneSlip>;

pub(crate) type MailboxPass<W> = Pass<Slip<W>, Hand<Asked<W>>>;

/// A mailbox, and a word that is 1 while a slip lies there that nobody has begun, and else 0. The word is a hint, by
/// which workers leave worked slips alone.
pub(crate) struct Post<W: Work + Drop>
where
    W::Item: Drop,
    W::Out: Drop,
{
    pub(crate) mailbox: Mailbox<W>,
    pub(crate) open: AtomicU64,
}

impl<W: Work + Drop> Drop for Post<W>
where
    W::Item: Drop,
    W::Out: Drop,
{
    fn drop(self) {
        let Self {
            mailbox: _,
            open: _,
        } = self;
    }
}

impl<W: Work + Drop> Post<W>
where
    W::Item: Drop,
    W::Out: Drop,
{
    /// The caller asks.
    pub(crate) fn ask<R: Wait>(&self, rt: &R, pass: &mut MailboxPass<W>, slip: Slip<W>)
        requires pass { IsPassOf self.now.mailbox pass.old × (view pass.old ≡ hand true None) }
        ensures pass { IsPassOf self.now.mailbox pass.new }
        ensures view { view pass.new ≡ hand true (Some (owed W.answer (arc_value slip.work) slip.stack.items slip.answers.items)) }
    {
        let mut slip = slip;
        for _ in rt.forever() {
            match self.mailbox.try_push_as::<Begins>(pass, slip) {
                Ok(()) => {
                    self.open.store(1, Ordering::SeqCst);
                    return;
                }
                Err(back) => slip = back,
            }
            thread::yield_now();
        }
        unreachable!()
    }

    /// A worker takes what is asked, if nobody has begun it.
    pub(crate) fn take(&self, pass: &mut MailboxPass<W>) -> Option<Slip<W>>
        requires pass { IsPassOf self.now.mailbox pass.old × (view pass.old ≡ hand false None) }
        ensures pass { IsPassOf self.now.mailbox pass.new }
        ensures view { MatchOption result (view pass.new ≡ hand false None) (λ s. view pass.new ≡ hand false (Some (owed W.answer (arc_value s.work) s.stack.items s.answers.items))) }
    {
        if self.open.load(Ordering::SeqCst) == 0 || self.open.swap(0, Ordering::SeqCst) == 0 {
            return None;
        }
        self.mailbox.try_pop_as::<Begins>(pass)
    }

    /// A worker gives back what it took.
    pub(crate) fn give<R: Wait>(&self, rt: &R, pass: &mut MailboxPass<W>, slip: Slip<W>)
        requires pass { IsPassOf self.now.mailbox pass.old × (view pass.old ≡ hand false (Some (owed W.answer (arc_value slip.work) slip.stack.items slip.answers.items))) }
        ensures pass { IsPassOf self.now.mailbox pass.new }
        ensures view { view pass.new ≡ hand false None }
    {
        let mut slip = slip;
        for _ in rt.forever() {
            match self.mailbox.try_push_as::<Ends>(pass, slip) {
                Ok(()) => return,
                Err(back) => slip = back,
            }
            thread::yield_now();
        }
        unreachable!()
    }

    /// The caller gets what it asked, worked or not, if it lies there. What nobody has begun is the caller's from then
    /// on.
    pub(crate) fn get(&self, pass: &mut MailboxPass<W>) -> Option<Slip<W>>
        requires pass { IsPassOf self.now.mailbox pass.old × ((view pass.old).leads ≡ true) × (is_asked (view pass.old).ask ≡ true) }
        ensures pass { IsPassOf self.now.mailbox pass.new }
        ensures none { MatchOption result (view pass.new ≡ view pass.old) (λ _. view pass.new ≡ hand true None) }
        ensures slip { IfSome result (λ s. (view pass.old).ask ≡ Some (owed W.answer (arc_value s.work) s.stack.items s.answers.items)) }
    {
        self.mailbox.try_pop_as::<Ends>(pass)
    }
}
