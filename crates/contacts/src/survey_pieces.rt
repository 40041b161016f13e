//! A look over contacts in pieces, by whoever works them. What all pieces read is lent to them, and comes back whole.

mod looking;

ghost use Rattle.std.specs.Prelude.{◌≡◌, IfOk, drop, take};
ghost use Rattle.std.specs.Result.{IsOkUnless};
ghost use Rattle.contacts_base.specs.Proxies.{IsProxyList};
ghost use Rattle.contacts.specs.Fates.{moved_by};
ghost use Rattle.contacts.specs.SurveyPieces.{IsLookRoomFor, joined_looks, looks_of, shown_looks};
ghost use Rattle.contacts.specs.PieceRanges.{items_in};

use crate::collide::Collide;
use crate::fates::ShapesById;
use crate::forbidden::ForbiddenPairs;
use crate::range_pieces::{RangePiece, range_of};
use crate::survey::{Looked, look_over};
use contacts_base::SplitContacts;
use crew::Piece;
use fixed_geom::Refusal;
pub(crate) use looking::{LookMemory, look_over_by};
use std::alloc::Global;
use std::marker::{Model, PhantomData};

/// What a look over contacts reads: the shapes, the pairs of bodies that may not collide, the contacts, and the places.
#[derive(Drop)]
pub struct Survey<S: ShapesById + Drop, F: ForbiddenPairs + Drop> {
    pub shapes: S,
    pub forbidden: F,
    pub contacts: SplitContacts,
    pub places: Vec<usize>,
    pub ghost list: { IsProxyList (S.proxies shapes) },
}

/// So many of the places, from one on, and room for what becomes of the contacts there. Contracts see which.
#[derive(Drop)]
pub struct SurveyPiece<S, F> {
    first: usize,
    count: usize,
    room: Looked,
    of: PhantomData<(S, F)>,
}

impl<S, F> Model for SurveyPiece<S, F> {
    ghost use Rattle.contacts.specs.SurveyPieces.{IsLookRoomFor};
    ghost use Rattle.contacts.specs.PieceRanges.{PieceRange};

    ghost Value = { PieceRange };

    ghost view = { λ a. record { first = a.first; count = a.count } };

    ghost invariant = { λ a. IsLookRoomFor a.count a.room };
}

/// What becomes of the contacts at the places of a piece.
#[derive(Drop)]
pub struct LookedPlaces {
    looked: Looked,
}

impl Model for LookedPlaces {
    ghost use Rattle.contacts.specs.SurveyPieces.{shown_looks};
    ghost use Rattle.contacts.specs.SurveyValues.{Looks};

    ghost Value = { Looks };

    ghost view = { λ a. shown_looks a.looked };
}

impl<S: ShapesById + Drop, F: ForbiddenPairs + Drop> Survey<S, F> {
    /// What becomes of the contacts at some of the places.
    fn looked(&self, first: usize, count: usize, room: Looked) -> Looked
        requires { IsLookRoomFor count room }
        ensures { shown_looks result ≡ looks_of (moved_by (S.marks self.now.shapes)) (F.pairs self.now.forbidden) (S.proxies self.now.shapes) self.now.contacts (take count (drop first self.now.places.items)) }
    {
        let collide = Collide::of(&self.shapes, &self.forbidden);
        look_over(
            room,
            &collide,
            &self.contacts,
            range_of(&self.places, first, count),
        )
    }
}

impl<S: ShapesById + Drop, F: ForbiddenPairs + Drop> Piece for SurveyPiece<S, F> {
    type Lent = Survey<S, F>;

    type Out = LookedPlaces;

    ghost worked = { λ lent r. looks_of (moved_by (S.marks lent.shapes)) (F.pairs lent.forbidden) (S.proxies lent.shapes) lent.contacts (items_in lent.places.items r) };

    fn work(self, lent: &Survey<S, F>) -> LookedPlaces {
        let SurveyPiece {
            first,
            count,
            room,
            of: _,
        } = self;
        LookedPlaces {
            looked: lent.looked(first, count, room),
        }
    }
}

/// Lists that have no room.
fn no_room(alloc: Global) -> Looked {
    Looked {
        notes: Vec::new(alloc),
        ends: Vec::new(alloc),
        begin: Vec::new(alloc),
        end: Vec::new(alloc),
    }
}

/// Empties lists, and makes room in them for what becomes of the contacts at so many places.
fn with_room(room: Looked, count: usize) -> Result<Looked, Refusal>
    ensures room { IfOk result (IsLookRoomFor count) }
    ensures memory_only { IsOkUnless result Refusal.NoMemory }
{
    let Looked {
        mut notes,
        mut ends,
        mut begin,
        mut end,
    } = room;
    notes.clear();
    ends.clear();
    begin.clear();
    end.clear();
    notes.reserve(count)?;
    ends.reserve(count)?;
    begin.reserve(count)?;
    end.reserve(count)?;
    Ok(Looked {
        notes,
        ends,
        begin,
        end,
    })
}

/// Memory that was kept from a piece, or none.
fn kept_room(alloc: Global, rooms: &mut Vec<LookedPlaces>) -> Looked {
    match rooms.pop() {
        Some(kept) => {
            let LookedPlaces { looked } = kept;
            looked
        }
        None => no_room(alloc),
    }
}

impl<S: ShapesById + Drop, F: ForbiddenPairs + Drop> RangePiece for SurveyPiece<S, F> {
    ghost range = { λ p. p };

    ghost items = { λ lent. lent.places.items };

    ghost answer_at = { λ lent places. looks_of (moved_by (S.marks lent.shapes)) (F.pairs lent.forbidden) (S.proxies lent.shapes) lent.contacts places };

    ghost joined = { joined_looks };

    fn count_items(lent: &Survey<S, F>) -> usize {
        lent.places.len()
    }

    fn of_range(
        kept: &mut Vec<LookedPlaces>,
        first: usize,
        count: usize,
    ) -> Result<SurveyPiece<S, F>, Refusal> {
        let alloc = *kept.allocator();
        let room = with_room(kept_room(alloc, kept), count)?;
        Ok(SurveyPiece {
            first,
            count,
            room,
            of: PhantomData,
        })
    }

    fn append(all: &mut LookedPlaces, answer: &LookedPlaces) -> Result<(), Refusal> {
        all.looked.notes.extend_from_slice(&answer.looked.notes)?;
        all.looked.ends.extend_from_slice(&answer.looked.ends)?;
        all.looked.begin.extend_from_slice(&answer.looked.begin)?;
        all.looked.end.extend_from_slice(&answer.looked.end)?;
        Ok(())
    }

    fn know_joined() {}
}
