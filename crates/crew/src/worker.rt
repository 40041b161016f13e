//! What a worker has, and what it does.

ghost use Rattle.std.specs.Prelude.{◌≡◌, false, None};
ghost use Rattle.std.specs.Arc.{arc_value};
ghost use Rattle.crossbeam_queue.specs.Passes.{view, IsPassOf};
ghost use Rattle.crew.specs.Mailbox.{hand};

use crate::bell::{Bell, OVER};
use crate::post::{MailboxPass, Post};
use crate::{Gate, Work};
use std::alloc::Global;
use std::sync::{Arc, Wait};

/// The mailbox of a piece with a worker's pass.
pub(crate) struct Access<W: Work + Drop>
where
    W::Item: Drop,
    W::Out: Drop,
{
    pub(crate) post: Arc<Post<W>, Global>,
    pub(crate) pass: MailboxPass<W>,
    pub ghost fits: { IsPassOf (arc_value post).mailbox pass },
    pub ghost free: { view pass ≡ hand false None },
}

impl<W: Work + Drop> Drop for Access<W>
where
    W::Item: Drop,
    W::Out: Drop,
{
    fn drop(self) {
        let Self { post: _, pass: _ } = self;
    }
}

impl<W: Work + Drop> Access<W>
where
    W::Item: Drop,
    W::Out: Drop,
{
    /// Works the piece, if nobody has begun it, and tells the caller then.
    fn work<R: Wait, G: Gate>(&mut self, rt: &R, gate: &G, bell: &Bell) {
        if let Some(slip) = self.post.take(&mut self.pass) {
            let slip = slip.worked(rt, gate);
            self.post.give(rt, &mut self.pass, slip);
            bell.tell_caller();
        }
    }
}

/// A worker that is to start: the bell, and the mailboxes of all pieces, its own first.
pub(crate) struct Worker<W: Work + Drop>
where
    W::Item: Drop,
    W::Out: Drop,
{
    pub(crate) bell: Arc<Bell, Global>,
    pub(crate) accesses: Vec<Access<W>>,
}

impl<W: Work + Drop> Drop for Worker<W>
where
    W::Item: Drop,
    W::Out: Drop,
{
    fn drop(self) {
        let Self {
            bell: _,
            accesses: _,
        } = self;
    }
}

impl<W: Work + Drop> Worker<W>
where
    W::Item: Drop,
    W::Out: Drop,
{
    /// Works pieces that nobody has begun, its own first, until the crew ends.
    pub(crate) fn serve<R: Wait, G: Gate>(self, rt: &R, gate: &G) {
        let Worker { bell, mut accesses } = self;
        let mut seen = 0;
        for _ in rt.forever() {
            let Some(own) = accesses.first() else {
                return;
            };
            seen = bell.wait_past(rt, seen, &own.post.open);
            if seen == OVER {
                return;
            }
            for access in accesses.iter_mut() {
                access.work(rt, gate, &*bell);
            }
        }
    }
}
