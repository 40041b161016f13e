//! Contacts are looked over: in pieces where there are workers, and many places for each.

ghost use Rattle.std.specs.Prelude.{◌≡◌, IfOk, OnOk};
ghost use Rattle.std.specs.Result.{IsOkUnless};
ghost use Rattle.contacts_base.specs.Proxies.{IsProxyList};
ghost use Rattle.contacts.specs.Fates.{moved_by};
ghost use Rattle.contacts.specs.SurveyPieces.{IsLookRoomFor, looks_of, shown_looks};

use crate::collide::Collide;
use crate::fates::ShapesById;
use crate::forbidden::ForbiddenPairs;
use crate::range_pieces::{Mapped, map_in_pieces};
use crate::survey::{Looked, look_over};
use crate::survey_pieces::{LookedPlaces, Survey, SurveyPiece, no_room, with_room};
use contacts_base::SplitContacts;
use crew::PieceMap;
use fixed_geom::Refusal;
use std::alloc::Global;
use std::mem;

/// With fewer places for each worker the calling thread looks at them alone.
const LEAST_PLACES: usize = 256;

/// Takes what a look over contacts reads out of its places, to be lent.
fn take_survey<S: ShapesById + Drop, F: ForbiddenPairs + Drop>(
    alloc: Global,
    shapes: &mut S,
    forbidden: &mut F,
    contacts: &mut SplitContacts,
    places: &mut Vec<usize>,
) -> Survey<S, F>
    requires { IsProxyList (S.proxies shapes.old) }
    ensures shapes { result.shapes ≡ shapes.old }
    ensures forbidden { result.forbidden ≡ forbidden.old }
    ensures contacts { result.contacts ≡ contacts.old }
    ensures places { result.places.items ≡ places.old.items }
{
    Survey {
        shapes: shapes.taken(alloc),
        forbidden: forbidden.taken(alloc),
        contacts: mem::replace(contacts, SplitContacts::new(alloc)),
        places: mem::replace(places, Vec::new(alloc)),
    }
}

/// Puts it back.
fn put_survey<S: ShapesById + Drop, F: ForbiddenPairs + Drop>(
    survey: Survey<S, F>,
    shapes: &mut S,
    forbidden: &mut F,
    contacts: &mut SplitContacts,
    places: &mut Vec<usize>,
)
    ensures shapes { shapes.new ≡ survey.shapes }
    ensures forbidden { forbidden.new ≡ survey.forbidden }
    ensures contacts { contacts.new ≡ survey.contacts }
    ensures places { places.new.items ≡ survey.places.items }
{
    let Survey {
        shapes: own_shapes,
        forbidden: own_forbidden,
        contacts: own_contacts,
        places: own_places,
    } = survey;
    *shapes = own_shapes;
    *forbidden = own_forbidden;
    *contacts = own_contacts;
    *places = own_places;
}

/// What is kept for looks over contacts from one to the next: what the last one found, and memory for pieces.
#[derive(Drop)]
pub(crate) struct LookMemory {
    pub found: Looked,
    rooms: Vec<LookedPlaces>,
}

impl LookMemory {
    /// Nothing was found, and there is no memory.
    pub(crate) fn new(alloc: Global) -> LookMemory {
        LookMemory {
            found: no_room(alloc),
            rooms: Vec::new(alloc),
        }
    }

    /// Takes the lists of the last look, emptied, with room for so many places.
    fn take_room(&mut self, count: usize) -> Result<Looked, Refusal>
        ensures room { IfOk result (IsLookRoomFor count) }
        ensures memory_only { IsOkUnless result Refusal.NoMemory }
    {
        let alloc = *self.rooms.allocator();
        with_room(mem::replace(&mut self.found, no_room(alloc)), count)
    }
}

/// Looks over the contacts at the places in pieces.
fn look_in_pieces<S: ShapesById + Drop, F: ForbiddenPairs + Drop, M: PieceMap<SurveyPiece<S, F>>>(
    mapper: &mut M,
    memory: &mut LookMemory,
    shapes: &mut S,
    forbidden: &mut F,
    contacts: &mut SplitContacts,
    places: &mut Vec<usize>,
) -> Result<(), Refusal>
    requires list { IsProxyList (S.proxies shapes.old) }
    ensures shapes { shapes.new ≡ shapes.old }
    ensures forbidden { forbidden.new ≡ forbidden.old }
    ensures contacts { contacts.new ≡ contacts.old }
    ensures places { places.new.items ≡ places.old.items }
    ensures found { OnOk result (shown_looks memory.new.found ≡ looks_of (moved_by (S.marks shapes.old)) (F.pairs forbidden.old) (S.proxies shapes.old) contacts.old places.old.items) }
    ensures memory_only { IsOkUnless result Refusal.NoMemory }
{
    let alloc = *places.allocator();
    let room = LookedPlaces {
        looked: memory.take_room(places.len())?,
    };
    let survey = take_survey(alloc, shapes, forbidden, contacts, places);
    let Mapped { lent, answer } = map_in_pieces(mapper, survey, room, &mut memory.rooms);
    put_survey(lent, shapes, forbidden, contacts, places);
    let LookedPlaces { looked } = answer?;
    memory.found = looked;
    Ok(())
}

/// Looks over the contacts at the places, and keeps in `memory` what becomes of them: in pieces where there are
/// workers, and many places for each.
pub(crate) fn look_over_by<
    S: ShapesById + Drop,
    F: ForbiddenPairs + Drop,
    M: PieceMap<SurveyPiece<S, F>>,
>(
    mapper: &mut M,
    memory: &mut LookMemory,
    shapes: &mut S,
    forbidden: &mut F,
    contacts: &mut SplitContacts,
    places: &mut Vec<usize>,
) -> Result<(), Refusal>
    requires list { IsProxyList (S.proxies shapes.old) }
    ensures shapes { shapes.new ≡ shapes.old }
    ensures forbidden { forbidden.new ≡ forbidden.old }
    ensures contacts { contacts.new ≡ contacts.old }
    ensures places { places.new.items ≡ places.old.items }
    ensures found { OnOk result (shown_looks memory.new.found ≡ looks_of (moved_by (S.marks shapes.old)) (F.pairs forbidden.old) (S.proxies shapes.old) contacts.old places.old.items) }
    ensures memory_only { IsOkUnless result Refusal.NoMemory }
{
    let workers = mapper.workers();
    if workers >= 2 && places.len() / workers >= LEAST_PLACES {
        return look_in_pieces(mapper, memory, shapes, forbidden, contacts, places);
    }
    let room = memory.take_room(places.len())?;
    let collide = Collide::of(&*shapes, &*forbidden);
    memory.found = look_over(room, &collide, contacts, places);
    Ok(())
}
