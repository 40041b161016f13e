//! A world's life: how it is made, copied, saved, loaded, told apart from others, and dropped.

ghost use Rattle.std.specs.Prelude.{◌≡◌, ◌≤◌, None, length, string_bytes};
ghost use Rattle.dillmonth.specs.Forms.{vector_said};
ghost use Rattle.dillmonth.specs.Keeping.{Copies, Digests, IsHeld, IsOpened, Loads, Opens, Saves, SavesAt, Settles, saved_in};
ghost use Rattle.dillmonth.specs.Lists.{written};

use crate::conversions::vector_of;
use crate::forms::CVector;
use crate::held::{CWorld, put, take};
use crate::shown::write_all;
use crate::statuses::{DONE, NO_WORLD, status_of, unread_status};
use fixed_geom::Refusal;
use std::alloc::Global;
use world_core::WorldCore;
use world_desk::Desk;

/// The version of the calls and of the structs, to be compared with `DM_VERSION` of the header.
#[unsafe(no_mangle)]
pub extern "C" fn dm_version() -> u32
    ensures { result ≡ 1 }
{
    1
}

/// Puts a new desk in the place of what is held; 1 where memory is wanting.
fn hold(alloc: Global, world: &mut CWorld, desk: Desk) -> u32
    ensures { IsHeld desk world.old.desk result world.new.desk }
{
    match Box::new(alloc, desk) {
        Ok(desk) => {
            put(world, desk);
            DONE
        }
        Err(_) => 1,
    }
}

/// A new desk, with an empty world of this gravity. Refused 5 or 1.
fn open(alloc: Global, gravity: CVector) -> Result<Desk, Refusal>
    ensures { IsOpened (vector_said gravity) result }
{
    let world = WorldCore::new(alloc, vector_of(gravity))?;
    Ok(Desk::with(alloc, world))
}

/// An empty world with this gravity, in u/tick². Refused 5 where a component is beyond 2^16 in size, else 1 where
/// memory is wanting, and what was held before stays; else it is dropped, with all that was saved, found and listed.
#[unsafe(no_mangle)]
pub extern "C" fn dm_open(alloc: Global, world: &mut CWorld, gravity: CVector) -> u32
    ensures { Opens (vector_said gravity) world.old.desk result world.new.desk }
{
    match open(alloc, gravity) {
        Ok(desk) => hold(alloc, world, desk),
        Err(refusal) => status_of(refusal),
    }
}

/// Drops the world, if there is one.
#[unsafe(no_mangle)]
pub extern "C" fn dm_close(alloc: Global, world: &mut CWorld)
    ensures { world.new.desk ≡ None }
{
    *world = CWorld::none(alloc);
}

/// A world of its own that is as this one; nothing was saved, found or listed in it yet. Refused 1 where memory is
/// wanting, and then `to` is as it was.
#[unsafe(no_mangle)]
pub extern "C" fn dm_copy(alloc: Global, from: &mut CWorld, to: &mut CWorld) -> u32
    ensures kept { from.new.desk ≡ from.old.desk }
    ensures copy { Copies from.old.desk to.old.desk result to.new.desk }
{
    match take(alloc, from) {
        None => NO_WORLD,
        Some(desk) => {
            let copied = desk.try_copy(alloc);
            put(from, desk);
            match copied {
                Ok(copied) => hold(alloc, to, copied),
                Err(refusal) => status_of(refusal),
            }
        }
    }
}

/// Drops the entries of the ledger, which are added to its sums. No total changes, nor the digest, nor anything that a
/// call answers, and no memory is taken. A program that never calls it keeps an entry for each impulse of each call.
#[unsafe(no_mangle)]
pub extern "C" fn dm_settle(alloc: Global, world: &mut CWorld) -> u32
    ensures { Settles world.old.desk result world.new.desk }
{
    match take(alloc, world) {
        None => NO_WORLD,
        Some(mut desk) => {
            desk.world.settle_ledger();
            put(world, desk);
            DONE
        }
    }
}

/// Saves the world of a desk, and counts the bytes of the text that is kept.
fn save(alloc: Global, desk: &mut Desk, bytes: &mut usize) -> u32
    ensures { SavesAt desk.old result bytes.old bytes.new desk.new }
{
    match desk.save(alloc) {
        Ok(()) => {
            *bytes = desk.saved.len();
            DONE
        }
        Err(refusal) => status_of(refusal),
    }
}

/// Saves the world, and keeps the text, whose bytes are counted, in place of the one before. What was found and listed
/// stays. Refused 1 where memory is wanting.
#[unsafe(no_mangle)]
pub extern "C" fn dm_save(alloc: Global, world: &mut CWorld, bytes: &mut usize) -> u32
    ensures { Saves world.old.desk result bytes.old bytes.new world.new.desk }
{
    match take(alloc, world) {
        None => NO_WORLD,
        Some(mut desk) => {
            let status = save(alloc, &mut desk, bytes);
            put(world, desk);
            status
        }
    }
}

/// Writes bytes into an array, as many as fit.
fn write_bytes(bytes: &[u8], out: &mut [u8])
    ensures { out.new ≡ written bytes.now out.old }
{
    write_all(bytes, out);
}

/// The bytes of the last save, as many as fit; tells how many there are.
#[unsafe(no_mangle)]
pub extern "C" fn dm_saved(alloc: Global, world: &mut CWorld, out: &mut [u8]) -> usize
    ensures kept { world.new.desk ≡ world.old.desk }
    ensures count { result ≡ length (saved_in world.old.desk) }
    ensures written { out.new ≡ written (saved_in world.old.desk) out.old }
{
    match take(alloc, world) {
        None => 0,
        Some(desk) => {
            let count = desk.saved.len();
            write_bytes(desk.saved.as_bytes(), out);
            put(world, desk);
            count
        }
    }
}

/// The world of a saved text; nothing was saved, found or listed in it yet. Refused 35 where there is no JSON in the
/// bytes, 12 where a clause of the format is broken, 1 where memory is wanting; what was held before then stays.
/// `clause` is written always: where 12 is answered the number of the clause, else 0.
#[unsafe(no_mangle)]
pub extern "C" fn dm_load(alloc: Global, world: &mut CWorld, text: &[u8], clause: &mut u32) -> u32
    ensures { Loads text.now world.old.desk result clause.new world.new.desk }
{
    match Desk::load(alloc, text) {
        Ok(desk) => {
            *clause = 0;
            hold(alloc, world, desk)
        }
        Err(why) => {
            let said = unread_status(why);
            *clause = said.clause;
            said.status
        }
    }
}

/// The digest of the world, of which as many bytes are written as fit in `out`. Refused 1 where memory is wanting.
#[unsafe(no_mangle)]
pub extern "C" fn dm_digest(alloc: Global, world: &mut CWorld, out: &mut [u8]) -> u32
    ensures kept { world.new.desk ≡ world.old.desk }
    ensures digest { Digests world.old.desk result out.old out.new }
{
    match take(alloc, world) {
        None => NO_WORLD,
        Some(desk) => {
            let digest = desk.digest();
            put(world, desk);
            match digest {
                Ok(digest) => {
                    write_bytes(digest.as_slice(), out);
                    DONE
                }
                Err(refusal) => status_of(refusal),
            }
        }
    }
}
