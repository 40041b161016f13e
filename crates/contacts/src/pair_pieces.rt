//! The contacts of near pairs in pieces, by whoever works them. What all pieces read is lent to them, and comes back
//! whole.

mod evaluating;

ghost use Rattle.std.specs.Prelude.{◌≡◌, IfOk, drop, length, take};
ghost use Rattle.std.specs.Result.{IsOkUnless};
ghost use Rattle.contacts_base.specs.ContactLists.{AreContacts};
ghost use Rattle.contacts_base.specs.Proxies.{IsProxyList};
ghost use Rattle.contacts.specs.Pairs.{ArePairs};
ghost use Rattle.contacts.specs.PairPieces.{IsRoomFor, evaluated, evaluated_in, evaluated_of, joined, shown};

use crate::changes::{Present, contacts_of_pairs};
use crate::range_pieces::{RangePiece, range_of};
use contacts_base::{ContactEntry, Proxy, SplitContacts};
use crew::Piece;
pub(crate) use evaluating::evaluate_pairs;
use fixed_geom::Refusal;
use std::alloc::Global;
use std::marker::Model;

/// What is read of near pairs: the contacts until now, the shapes, and the codes of the pairs. Contracts see all of it.
#[derive(Drop)]
pub struct PairLists {
    old: SplitContacts,
    proxies: Vec<Proxy>,
    near: Vec<u64>,
}

impl Model for PairLists {
    ghost use Rattle.contacts_base.specs.ContactLists.{AreContacts};
    ghost use Rattle.contacts_base.specs.Proxies.{IsProxyList};
    ghost use Rattle.contacts.specs.Pairs.{ArePairs};
    ghost use Rattle.contacts.specs.PairValues.{NearLists};

    ghost Value = { NearLists };

    ghost view = { λ a. record { contacts = a.old; proxies = a.proxies.items; near = a.near.items } };

    ghost invariant = { λ a. AreContacts a.old.long × IsProxyList a.proxies.items × ArePairs a.proxies.items a.near.items };
}

/// So many of the near pairs, from a place on, and room for their contacts. Contracts see which.
#[derive(Drop)]
pub struct PairPiece {
    first: usize,
    count: usize,
    room: Present,
}

impl Model for PairPiece {
    ghost use Rattle.contacts.specs.PairPieces.{IsRoomFor};
    ghost use Rattle.contacts.specs.PieceRanges.{PieceRange};

    ghost Value = { PieceRange };

    ghost view = { λ a. record { first = a.first; count = a.count } };

    ghost invariant = { λ a. IsRoomFor a.count a.room };
}

/// The contacts of a piece, and what is new in them.
#[derive(Drop)]
pub struct EvaluatedPairs {
    present: Present,
}

impl Model for EvaluatedPairs {
    ghost use Rattle.contacts.specs.PairPieces.{shown};
    ghost use Rattle.contacts.specs.PairValues.{Evaluated};

    ghost Value = { Evaluated };

    ghost view = { λ a. shown a.present };
}

/// The contacts of pairs.
fn evaluated_of(room: Present, old: &[ContactEntry], proxies: &[Proxy], near: &[u64]) -> Present
    requires room { IsRoomFor (length near.now) room }
    requires old { AreContacts old.now }
    requires proxies { IsProxyList proxies.now }
    requires near { ArePairs proxies.now near.now }
    ensures { shown result ≡ evaluated_of old.now proxies.now near.now }
{
    contacts_of_pairs(room, old, proxies, near)
}

/// The contacts of some pairs that follow one another.
fn evaluated_from(
    room: Present,
    old: &[ContactEntry],
    proxies: &[Proxy],
    near: &[u64],
    first: usize,
    count: usize,
) -> Present
    requires room { IsRoomFor count room }
    requires old { AreContacts old.now }
    requires proxies { IsProxyList proxies.now }
    requires near { ArePairs proxies.now near.now }
    ensures { shown result ≡ evaluated_of old.now proxies.now (take count (drop first near.now)) }
{
    evaluated_of(room, old, proxies, range_of(near, first, count))
}

impl PairLists {
    /// The contacts of some of the pairs.
    fn evaluated(&self, first: usize, count: usize, room: Present) -> Present
        requires { IsRoomFor count room }
        ensures { shown result ≡ evaluated_in self.now (take count (drop first self.now.near)) }
    {
        evaluated_from(
            room,
            self.old.long(),
            &self.proxies,
            &self.near,
            first,
            count,
        )
    }
}

impl Piece for PairPiece {
    type Lent = PairLists;

    type Out = EvaluatedPairs;

    ghost worked = { evaluated };

    fn work(self, lent: &PairLists) -> EvaluatedPairs {
        let PairPiece { first, count, room } = self;
        EvaluatedPairs {
            present: lent.evaluated(first, count, room),
        }
    }
}

/// Lists that have no room.
fn no_room(alloc: Global) -> Present {
    Present {
        now: Vec::new(alloc),
        made: Vec::new(alloc),
        begin: Vec::new(alloc),
    }
}

/// Empties lists, and makes room in them for the contacts of so many pairs.
fn with_room(room: Present, count: usize) -> Result<Present, Refusal>
    ensures room { IfOk result (IsRoomFor count) }
    ensures memory_only { IsOkUnless result Refusal.NoMemory }
{
    let Present {
        mut now,
        mut made,
        mut begin,
    } = room;
    now.clear();
    made.clear();
    begin.clear();
    now.reserve(count)?;
    made.reserve(count)?;
    begin.reserve(count)?;
    Ok(Present { now, made, begin })
}

/// Memory that was kept from a piece, or none.
fn kept_room(alloc: Global, rooms: &mut Vec<EvaluatedPairs>) -> Present {
    match rooms.pop() {
        Some(kept) => {
            let EvaluatedPairs { present } = kept;
            present
        }
        None => no_room(alloc),
    }
}

impl RangePiece for PairPiece {
    ghost range = { λ p. p };

    ghost items = { λ l. l.near };

    ghost answer_at = { evaluated_in };

    ghost joined = { joined };

    fn count_items(lent: &PairLists) -> usize {
        lent.near.len()
    }

    fn of_range(
        kept: &mut Vec<EvaluatedPairs>,
        first: usize,
        count: usize,
    ) -> Result<PairPiece, Refusal> {
        let alloc = *kept.allocator();
        let room = with_room(kept_room(alloc, kept), count)?;
        Ok(PairPiece { first, count, room })
    }

    fn append(all: &mut EvaluatedPairs, answer: &EvaluatedPairs) -> Result<(), Refusal> {
        all.present.now.extend_from_slice(&answer.present.now)?;
        all.present.made.extend_from_slice(&answer.present.made)?;
        all.present.begin.extend_from_slice(&answer.present.begin)?;
        Ok(())
    }

    fn know_joined() {}
}
