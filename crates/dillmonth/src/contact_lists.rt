//! Which contacts there are in a world.

ghost use Rattle.std.specs.Prelude.{◌≡◌, length, map};
ghost use Rattle.dillmonth.specs.Lists.{contact_shown, contacts_in, written};
ghost use Rattle.dillmonth.specs.Questions.{Lists, ListsAt};

use crate::forms::CContact;
use crate::held::{CWorld, put, take};
use crate::shown::write_all;
use crate::statuses::{DONE, NO_WORLD, status_of};
use std::alloc::Global;
use world_desk::Desk;

/// Lists the contacts of the world of a desk, and counts them.
fn list(alloc: Global, desk: &mut Desk, count: &mut usize) -> u32
    ensures { ListsAt desk.old result count.old count.new desk.new }
{
    match desk.list_contacts(alloc) {
        Ok(()) => {
            *count = desk.contacts.len();
            DONE
        }
        Err(refusal) => status_of(refusal),
    }
}

/// Lists the contacts of near shapes, keeps the list in place of the one before, and counts them. The text and the
/// shapes that are kept stay. Refused 1 where memory is wanting.
#[unsafe(no_mangle)]
pub extern "C" fn dm_contacts(alloc: Global, world: &mut CWorld, count: &mut usize) -> u32
    ensures { Lists world.old.desk result count.old count.new world.new.desk }
{
    match take(alloc, world) {
        None => NO_WORLD,
        Some(mut desk) => {
            let status = list(alloc, &mut desk, count);
            put(world, desk);
            status
        }
    }
}

/// The contacts that were listed last, ascending by their shapes, as many as fit; tells how many there are.
#[unsafe(no_mangle)]
pub extern "C" fn dm_contacts_listed(
    alloc: Global,
    world: &mut CWorld,
    out: &mut [CContact],
) -> usize
    ensures kept { world.new.desk ≡ world.old.desk }
    ensures count { result ≡ length (contacts_in world.old.desk) }
    ensures written { out.new ≡ written (map contact_shown (contacts_in world.old.desk)) out.old }
{
    match take(alloc, world) {
        None => 0,
        Some(desk) => {
            let count = write_all(desk.contacts.as_slice(), out);
            put(world, desk);
            count
        }
    }
}
