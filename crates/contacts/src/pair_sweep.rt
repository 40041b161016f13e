//! The broad phase: the fat boxes of the enabled bodies' shapes, and which of them overlap.

ghost use Rattle.std.specs.Prelude.{◌≡◌, ◌<◌, ◌≤◌, ◌-◌, ◌∷◌, ◌++◌, [], All, OnOk, OnErr, IfOk, vec_len, vec_capacity};
ghost use Rattle.std.specs.Result.{IsOkUnless};
ghost use Rattle.contacts_base.specs.ContactLists.{AreContacts};
ghost use Rattle.contacts_base.specs.NearCodes.{near_codes};
ghost use Rattle.contacts_base.specs.Proxies.{IsProxy, IsProxyList, number_of};
ghost use Rattle.contacts_base.specs.ByPairs.{contacts_between};
ghost use Rattle.contacts.specs.Pairs.{ArePairs};
ghost use Rattle.contacts_base.specs.Changes.{keys_touching_only_in};
ghost use Rattle.contacts_base.specs.ChangedKeys.{AreRising, keys_not_in};

use crate::changes::{Changes, update};
use crate::forbidden::{ForbiddenPairs, list_allowed};
use crate::pair_pieces::{EvaluatedPairs, PairPiece};
use crate::sweep::near_pairs;
use contacts_base::{ContactEntry, Proxy, SplitContacts};
use crew::PieceMap;
use fixed_geom::{Box2, Refusal};
use std::alloc::Global;
use std::marker::Model;

/// The shapes of the enabled bodies with their fat boxes, ascending by id.
#[derive(Drop)]
pub struct PairSweep {
    proxies: Vec<Proxy>,
    // Their fat boxes again, side by side, which is all that the sweep reads of most shapes.
    boxes: Vec<Box2>,
    // The sum of the fat boxes' heights, in u, or 2^64 - 1 if it is beyond.
    heights: u64,
    // Room that the sweep works in, kept from one to the next.
    starts: Vec<u64>,
    dynamics: Vec<u64>,
    near: Vec<u64>,
    // The near pairs whose bodies nothing keeps from colliding, kept in the same way.
    allowed: Vec<u64>,
    // Memory for pieces of them that workers evaluate.
    rooms: Vec<EvaluatedPairs>,
}

impl Model for PairSweep {
    ghost use Rattle.std.specs.Prelude.{List};
    ghost use Rattle.contacts_base.specs.declared.near.Proxy.{Proxy};

    ghost Value = { List Proxy };

    ghost use Rattle.contacts.specs.Inside.{IsInside};

    ghost view = { λ a. a.proxies.items };

    ghost invariant = { λ a. IsInside a };
}

/// Adds a box for which there is room.
fn push_within(boxes: &mut Vec<Box2>, fat: Box2)
    requires { 1 ≤ vec_capacity boxes.old - vec_len boxes.old }
    ensures { boxes.new.items ≡ boxes.old.items ++ fat ∷ [] }
{
    let _ = boxes.push(fat);
}

impl PairSweep {
    /// No shapes.
    pub fn new(alloc: Global) -> PairSweep
        ensures { result ≡ [] }
    {
        PairSweep {
            proxies: Vec::new(alloc),
            boxes: Vec::new(alloc),
            heights: 0,
            starts: Vec::new(alloc),
            dynamics: Vec::new(alloc),
            near: Vec::new(alloc),
            allowed: Vec::new(alloc),
            rooms: Vec::new(alloc),
        }
    }

    /// Drops all shapes and keeps their room.
    pub fn clear(&mut self)
        ensures { self.new ≡ [] }
    {
        self.proxies.clear();
        self.boxes.clear();
        self.heights = 0;
    }

    /// Adds a shape after those that are there, all of them lower. Refused 1 where memory is
    /// wanting, and then nothing is added.
    pub fn push(&mut self, proxy: Proxy) -> Result<(), Refusal>
        requires proxy { IsProxy proxy }
        requires last { All (λ other. number_of other < number_of proxy) self.old }
        ensures pushed { OnOk result (self.new ≡ self.old ++ proxy ∷ []) }
        ensures refused { OnErr result (self.new ≡ self.old) }
        ensures memory_only { IsOkUnless result Refusal.NoMemory }
    {
        self.boxes.reserve(1)?;
        self.proxies.push(proxy)?;
        push_within(&mut self.boxes, proxy.fat);
        self.heights = self
            .heights
            .saturating_add(proxy.fat.lo.y.abs_diff(proxy.fat.hi.y));
        Ok(())
    }

    /// A copy.
    pub fn try_copy(&self) -> Result<PairSweep, Refusal>
        ensures copy { IfOk result (λ copied. copied ≡ self.now) }
        ensures memory_only { IsOkUnless result Refusal.NoMemory }
    {
        let alloc = *self.proxies.allocator();
        let mut proxies = Vec::new(alloc);
        proxies.extend_from_slice(&self.proxies)?;
        let mut boxes = Vec::new(alloc);
        boxes.extend_from_slice(&self.boxes)?;
        Ok(PairSweep {
            proxies,
            boxes,
            heights: self.heights,
            starts: Vec::new(alloc),
            dynamics: Vec::new(alloc),
            near: Vec::new(alloc),
            allowed: Vec::new(alloc),
            rooms: Vec::new(alloc),
        })
    }

    /// The shapes, ascending by id.
    pub fn proxies(&self) -> &[Proxy]
        ensures value { result.now ≡ self.now }
        ensures list { IsProxyList result.now }
    {
        self.proxies.as_slice()
    }

    /// The numbers of all near pairs, ascending: 2^32 times the place of the one shape, and the place of the other.
    ///
    /// By a sweep along x in strips: the cost grows with the shapes and with the pairs whose fat boxes
    /// are close. The lists that it works in keep their room.
    pub fn near_pairs(&mut self, alloc: Global) -> Result<Vec<u64>, Refusal>
        ensures kept { self.new ≡ self.old }
        ensures value { IfOk result (λ near. near.items ≡ near_codes self.old) }
        ensures pairs { IfOk result (λ near. ArePairs self.old near.items) }
        ensures memory_only { IsOkUnless result Refusal.NoMemory }
    {
        near_pairs(
            &mut self.starts,
            &mut self.dynamics,
            &mut self.near,
            self.heights,
            &self.proxies,
            &self.boxes,
        )?;
        let mut near = Vec::new(alloc);
        near.extend_from_slice(&self.near)?;
        Ok(near)
    }

    /// The contacts of the near pairs whose bodies aren't among the forbidden pairs, and what changed; `old` has the
    /// contacts until now in its long list. They are listed in the memory of `room`, whatever is in it.
    ///
    /// A contact is evaluated anew if one of its two bodies stirs, and else stays as it is. A pair that had a contact
    /// keeps its surface, and the impulses of its points by their candidates; a new pair gets a contact with what its
    /// shapes' surfaces mix to. A contact ends that touched and doesn't any more, also where its shapes are no longer
    /// near or its bodies may no longer collide.
    pub fn update_contacts<F: ForbiddenPairs, M: PieceMap<PairPiece>>(
        &mut self,
        mapper: &mut M,
        room: Vec<ContactEntry>,
        forbidden: &F,
        old: &mut SplitContacts,
    ) -> Result<Changes, Refusal>
        requires old { AreContacts old.old.long }
        ensures kept { self.new ≡ self.old }
        ensures contacts { old.new ≡ old.old }
        ensures now { IfOk result (λ changes. changes.now ≡ contacts_between (F.pairs forbidden.now) self.old old.old.long) }
        ensures made { IfOk result (λ changes. changes.made.items ≡ keys_not_in old.old.long changes.now) }
        ensures gone { IfOk result (λ changes. changes.gone.items ≡ keys_not_in changes.now old.old.long) }
        ensures begin { IfOk result (λ changes. changes.begin.items ≡ keys_touching_only_in old.old.long changes.now) }
        ensures end { IfOk result (λ changes. changes.end.items ≡ keys_touching_only_in changes.now old.old.long) }
        ensures made_rising { IfOk result (λ changes. AreRising changes.made.items) }
        ensures gone_rising { IfOk result (λ changes. AreRising changes.gone.items) }
        ensures begin_rising { IfOk result (λ changes. AreRising changes.begin.items) }
        ensures end_rising { IfOk result (λ changes. AreRising changes.end.items) }
        ensures memory_only { IsOkUnless result Refusal.NoMemory }
    {
        near_pairs(
            &mut self.starts,
            &mut self.dynamics,
            &mut self.near,
            self.heights,
            &self.proxies,
            &self.boxes,
        )?;
        list_allowed(&mut self.allowed, forbidden, &self.proxies, &self.near)?;
        update(
            mapper,
            room,
            old,
            &mut self.proxies,
            &mut self.allowed,
            &mut self.rooms,
        )
    }
}
