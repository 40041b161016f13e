//! Near pairs are evaluated: in pieces where there are workers, and many pairs for each.

ghost use Rattle.std.specs.Prelude.{◌≡◌, [], IfOk};
ghost use Rattle.std.specs.Result.{IsOkUnless};
ghost use Rattle.contacts_base.specs.ContactLists.{AreContacts};
ghost use Rattle.contacts_base.specs.Proxies.{IsProxyList};
ghost use Rattle.contacts.specs.Pairs.{ArePairs};
ghost use Rattle.contacts.specs.ByCodes.{contacts_of};
ghost use Rattle.contacts_base.specs.Changes.{keys_touching_only_in};
ghost use Rattle.contacts_base.specs.ChangedKeys.{keys_not_in};
ghost use Rattle.contacts.specs.PairPieces.{evaluated_of, joined, shown};

use crate::changes::Present;
use crate::pair_pieces::{
    EvaluatedPairs, PairLists, PairPiece, evaluated_of, kept_room, with_room,
};
use crate::range_pieces::{Mapped, map_in_pieces};
use contacts_base::{ContactEntry, Proxy, SplitContacts};
use crew::PieceMap;
use fixed_geom::Refusal;
use std::alloc::Global;
use std::mem;

/// With fewer pairs for each worker the calling thread evaluates them alone.
const LEAST_PAIRS: usize = 256;

/// Takes the lists out of their places, where empty ones stand then.
fn take_lists(
    alloc: Global,
    old: &mut SplitContacts,
    proxies: &mut Vec<Proxy>,
    near: &mut Vec<u64>,
) -> PairLists
    requires old { AreContacts old.old.long }
    requires proxies { IsProxyList proxies.old.items }
    requires near { ArePairs proxies.old.items near.old.items }
    ensures { result ≡ record { contacts = old.old; proxies = proxies.old.items; near = near.old.items } }
{
    PairLists {
        old: mem::replace(old, SplitContacts::new(alloc)),
        proxies: mem::replace(proxies, Vec::new(alloc)),
        near: mem::replace(near, Vec::new(alloc)),
    }
}

/// Puts them back.
fn put_lists(
    lists: PairLists,
    old: &mut SplitContacts,
    proxies: &mut Vec<Proxy>,
    near: &mut Vec<u64>,
)
    ensures old { old.new ≡ lists.contacts }
    ensures proxies { proxies.new.items ≡ lists.proxies }
    ensures near { near.new.items ≡ lists.near }
{
    let PairLists {
        old: own_old,
        proxies: own_proxies,
        near: own_near,
    } = lists;
    *old = own_old;
    *proxies = own_proxies;
    *near = own_near;
}

/// The contacts of near pairs in pieces, in the memory of `room`.
fn evaluate_in_pieces<M: PieceMap<PairPiece>>(
    mapper: &mut M,
    room: Present,
    old: &mut SplitContacts,
    proxies: &mut Vec<Proxy>,
    near: &mut Vec<u64>,
    rooms: &mut Vec<EvaluatedPairs>,
) -> Result<Present, Refusal>
    requires room { shown room ≡ joined [] }
    requires old { AreContacts old.old.long }
    requires proxies { IsProxyList proxies.old.items }
    requires near { ArePairs proxies.old.items near.old.items }
    ensures old { old.new ≡ old.old }
    ensures proxies { proxies.new.items ≡ proxies.old.items }
    ensures near { near.new.items ≡ near.old.items }
    ensures present { IfOk result (λ present. shown present ≡ evaluated_of old.old.long proxies.old.items near.old.items) }
    ensures memory_only { IsOkUnless result Refusal.NoMemory }
{
    let alloc = *rooms.allocator();
    let lists = take_lists(alloc, old, proxies, near);
    let room = EvaluatedPairs { present: room };
    let Mapped { lent, answer } = map_in_pieces(mapper, lists, room, rooms);
    put_lists(lent, old, proxies, near);
    let EvaluatedPairs { present } = answer?;
    Ok(present)
}

/// The contacts of near pairs and what is new in them: in pieces where there are workers, and many pairs for each.
fn evaluate<M: PieceMap<PairPiece>>(
    mapper: &mut M,
    room: Vec<ContactEntry>,
    old: &mut SplitContacts,
    proxies: &mut Vec<Proxy>,
    near: &mut Vec<u64>,
    rooms: &mut Vec<EvaluatedPairs>,
) -> Result<Present, Refusal>
    requires old { AreContacts old.old.long }
    requires proxies { IsProxyList proxies.old.items }
    requires near { ArePairs proxies.old.items near.old.items }
    ensures old { old.new ≡ old.old }
    ensures proxies { proxies.new.items ≡ proxies.old.items }
    ensures present { IfOk result (λ present. shown present ≡ evaluated_of old.old.long proxies.old.items near.old.items) }
    ensures memory_only { IsOkUnless result Refusal.NoMemory }
{
    let alloc = *room.allocator();
    let workers = mapper.workers();
    let mut kept = kept_room(alloc, rooms);
    kept.now = room;
    let room = with_room(kept, near.len())?;
    if workers < 2 || near.len() / workers < LEAST_PAIRS {
        return Ok(evaluated_of(room, old.long(), proxies, near));
    }
    evaluate_in_pieces(mapper, room, old, proxies, near, rooms)
}

/// The contacts of near pairs and what is new in them: in pieces where there are workers, and many pairs for each. The
/// contacts are listed in the memory of `room`; `rooms` have memory for pieces.
pub(crate) fn evaluate_pairs<M: PieceMap<PairPiece>>(
    mapper: &mut M,
    room: Vec<ContactEntry>,
    old: &mut SplitContacts,
    proxies: &mut Vec<Proxy>,
    near: &mut Vec<u64>,
    rooms: &mut Vec<EvaluatedPairs>,
) -> Result<Present, Refusal>
    requires old { AreContacts old.old.long }
    requires proxies { IsProxyList proxies.old.items }
    requires near { ArePairs proxies.old.items near.old.items }
    ensures old { old.new ≡ old.old }
    ensures proxies { proxies.new.items ≡ proxies.old.items }
    ensures now { IfOk result (λ present. present.now.items ≡ contacts_of old.old.long proxies.old.items near.old.items) }
    ensures contacts { IfOk result (λ present. AreContacts present.now.items) }
    ensures made { IfOk result (λ present. present.made.items ≡ keys_not_in old.old.long present.now.items) }
    ensures begin { IfOk result (λ present. present.begin.items ≡ keys_touching_only_in old.old.long present.now.items) }
    ensures memory_only { IsOkUnless result Refusal.NoMemory }
{
    let present = evaluate(mapper, room, old, proxies, near, rooms)?;
    Ok(present)
}
