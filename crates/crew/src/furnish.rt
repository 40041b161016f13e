//! What a crew has before its threads start: a mailbox for each piece, with the passes of the caller and of each
//! worker.

ghost use Rattle.std.specs.Prelude.{◌≡◌, true, None};
ghost use Rattle.std.specs.Arc.{arc_value};
ghost use Rattle.crossbeam_queue.specs.Passes.{view, IsPassOf};
ghost use Rattle.crew.specs.Mailbox.{hand};

use crate::Work;
use crate::bell::Bell;
use crate::desk::Desk;
use crate::post::{Mailbox, MailboxPass, Post};
use crate::rule::OneSlip;
use crate::worker::{Access, Worker};
use std::alloc::{AllocError, Global};
use std::sync::Arc;
use std::sync::atomic::AtomicU64;

/// Gives each worker a pass to a mailbox.
fn admit<W: Work + Drop>(
    post: &Arc<Post<W>, Global>,
    pass: &mut MailboxPass<W>,
    workers: &mut Vec<Worker<W>>,
) -> Result<(), AllocError>
where
    W::Item: Drop,
    W::Out: Drop,
    requires pass { IsPassOf (arc_value post.now).mailbox pass.old × (view pass.old ≡ hand true None) }
    ensures pass { IsPassOf (arc_value post.now).mailbox pass.new × (view pass.new ≡ hand true None) }
{
    for worker in workers.iter_mut() {
        let shared = Arc::try_clone(post)?;
        let theirs = post.mailbox.another::<OneSlip>(pass);
        worker.accesses.push(Access {
            post: shared,
            pass: theirs,
        })?;
    }
    Ok(())
}

/// Makes the mailbox of a piece, with lists for so many items.
fn furnish<W: Work + Drop>(
    alloc: Global,
    room: usize,
    workers: &mut Vec<Worker<W>>,
) -> Result<Desk<W>, AllocError>
where
    W::Item: Drop,
    W::Out: Drop,
{
    let stack = Vec::with_capacity(alloc, room)?;
    let answers = Vec::with_capacity(alloc, room)?;
    let (mailbox, mut pass) = Mailbox::<W>::ruled(alloc, 1)?;
    let open = AtomicU64::new(0);
    let post = Arc::new(alloc, Post { mailbox, open })?;
    admit(&post, &mut pass, workers)?;
    Ok(Desk {
        alloc,
        post,
        pass,
        asked: false,
        back: None,
        stack,
        answers,
    })
}

/// So many workers, who have no passes.
fn workers_with<W: Work + Drop>(
    alloc: Global,
    bell: &Arc<Bell, Global>,
    count: usize,
) -> Result<Vec<Worker<W>>, AllocError>
where
    W::Item: Drop,
    W::Out: Drop,
{
    let mut workers = Vec::with_capacity(alloc, count)?;
    for _ in 0..count {
        workers.push(Worker {
            bell: Arc::try_clone(bell)?,
            accesses: Vec::with_capacity(alloc, count)?,
        })?;
    }
    Ok(workers)
}

/// The mailboxes of so many pieces, to which each worker has a pass.
fn desks_for<W: Work + Drop>(
    alloc: Global,
    room: usize,
    count: usize,
    workers: &mut Vec<Worker<W>>,
) -> Result<Vec<Desk<W>>, AllocError>
where
    W::Item: Drop,
    W::Out: Drop,
{
    let mut desks = Vec::with_capacity(alloc, count)?;
    for _ in 0..count {
        desks.push(furnish(alloc, room, workers)?)?;
    }
    Ok(desks)
}

/// Puts the mailbox that is a worker's own before the others.
fn begin_with_own<W: Work + Drop>(workers: &mut Vec<Worker<W>>)
where
    W::Item: Drop,
    W::Out: Drop,
{
    for (number, worker) in workers.iter_mut().enumerate() {
        let own = number.min(worker.accesses.len());
        worker.accesses.rotate_left(own);
    }
}

/// Mailboxes for so many workers, with lists for `room` items each.
pub(crate) fn furnish_all<W: Work + Drop>(
    alloc: Global,
    bell: &Arc<Bell, Global>,
    count: usize,
    room: usize,
) -> Result<(Vec<Desk<W>>, Vec<Worker<W>>), AllocError>
where
    W::Item: Drop,
    W::Out: Drop,
{
    let mut workers = workers_with(alloc, bell, count)?;
    let desks = desks_for(alloc, room, count, &mut workers)?;
    begin_with_own(&mut workers);
    Ok((desks, workers))
}
