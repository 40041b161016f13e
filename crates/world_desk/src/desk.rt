//! A world, the text of its last save, what its last questions found, and what its steps told.

ghost use Rattle.std.specs.Prelude.{◌≡◌, [], IfErr, IfOk, None, OnErr, OnOk, false, true, string_bytes};
ghost use Rattle.std.specs.Result.{IsOkUnless};
ghost use Rattle.impulse_ledger.specs.Sums.{totals_of};
ghost use Rattle.saved_text.specs.Texts.{IsTextOf};
ghost use Rattle.shape_rays.specs.Hits.{region};
ghost use Rattle.shapes.specs.Rays.{IsBeam, beam_of};
ghost use Rattle.world_desk.specs.Clear.{IsClear};
ghost use Rattle.world_desk.specs.Logs.{Applies, IsApplied, IsLogged, IsTagged, told};
ghost use Rattle.world_desk.specs.Tags.{tag_of, tagged};
ghost use Rattle.world_desk.specs.Texts.{IsLoaded, IsUnread, filtered_refusal, ray_refusal, region_refusal};
ghost use Rattle.world_digest.specs.Digests.{digest_of};
ghost use Rattle.world_file.specs.Files.{value_of};
ghost use Rattle.world_queries.specs.AllHits.{AreAllHits};
ghost use Rattle.world_queries.specs.Filters.{filter_refusal, shapes_through};
ghost use Rattle.world_queries.specs.Limits.{is_region};
ghost use Rattle.world_queries.specs.Posed.{posed_shapes};
ghost use Rattle.world_rules.specs.World.{book_of};

use crate::loading::world_of_text;
use crate::log::{events_of, is_stepped};
use crate::step_event::{StepEvent, Tagged};
use crate::tags::{put_tag, tag_of};
use crate::text::text_of;
use crate::unread::Unread;
use fixed_geom::{Box2, Refusal, Vec2};
use std::alloc::Global;
use world_core::{Command, ContactEntry, Handle, Reply, ShapeId, WorldCore};
use world_digest::digest;
use world_queries::{Hit, QueryFilter};

/// A world, and beside it what was last saved of it or found in it.
#[derive(Drop)]
pub struct Desk {
    pub world: WorldCore,
    /// The text of the last save, in UTF-8; empty before the first.
    pub saved: String,
    /// The contacts that `list_contacts` found last, ascending by key.
    pub contacts: Vec<ContactEntry>,
    /// The shapes that `region` or `filtered_region` found last, ascending by name.
    pub found: Vec<ShapeId>,
    /// What the ray of the last `all_hits` hit, the nearest first.
    pub hits: Vec<Hit>,
    /// The tags of bodies, by slot.
    pub tags: Vec<Tagged>,
    /// Whether the events of steps are kept.
    pub keeps: bool,
    /// The events that are kept, but for those of the last step where they are pending.
    pub log: Vec<StepEvent>,
    /// Whether the events of the last step are to be kept, and aren't in `log` yet. No command was accepted after that
    /// step.
    pub pending: bool,
}

impl Desk {
    /// A desk for this world, on which nothing lies yet.
    pub fn with(alloc: Global, world: WorldCore) -> Desk
        ensures world { result.world ≡ world }
        ensures clear { IsClear result }
        ensures tags { result.tags.items ≡ [] }
    {
        Desk {
            world,
            saved: String::new(alloc),
            contacts: Vec::new(alloc),
            found: Vec::new(alloc),
            hits: Vec::new(alloc),
            tags: Vec::new(alloc),
            keeps: false,
            log: Vec::new(alloc),
            pending: false,
        }
    }

    /// A copy of its world and of the tags, on a desk of its own, on which nothing else lies yet.
    pub fn try_copy(&self, alloc: Global) -> Result<Desk, Refusal>
        ensures world { IfOk result (λ copied. copied.world ≡ self.now.world) }
        ensures clear { IfOk result IsClear }
        ensures tags { IfOk result (λ copied. copied.tags.items ≡ self.now.tags.items) }
        ensures memory_only { IsOkUnless result Refusal.NoMemory }
    {
        let tags = Vec::from_slice(alloc, self.tags.as_slice())?;
        let mut copied = Desk::with(alloc, self.world.try_copy()?);
        copied.tags = tags;
        Ok(copied)
    }

    /// Applies a command to the world, and keeps the events of a step that is accepted, where events are kept. A
    /// refused one changes nothing. Refused as `WorldCore::apply`; and 1, before all else, where memory is wanting for
    /// the events of the step before.
    pub fn apply(&mut self, alloc: Global, command: &Command) -> Result<Reply, Refusal>
        ensures { Applies command.now self.old result self.new }
    {
        self.log_last(alloc)?;
        self.apply_logged(command)
    }

    /// The same where all events are logged.
    fn apply_logged(&mut self, command: &Command) -> Result<Reply, Refusal>
        requires { self.old.pending ≡ false }
        ensures { IsApplied command.now self.old result self.new }
    {
        let outcome = self.world.apply(command);
        self.pending = is_stepped(&outcome) & self.keeps;
        outcome
    }

    /// Logs the events of the last step, if they are to be. No event is told otherwise then.
    pub fn log_last(&mut self, alloc: Global) -> Result<(), Refusal>
        ensures logged { IsLogged self.old self.new }
        ensures log { OnOk result (self.new.log.items ≡ told self.old) }
        ensures none_pending { OnOk result (self.new.pending ≡ false) }
        ensures wanting { OnErr result (self.old.pending ≡ true) }
        ensures memory_only { IsOkUnless result Refusal.NoMemory }
    {
        if !self.pending {
            return Ok(());
        }
        let mut events = events_of(alloc, &self.world, self.tags.as_slice())?;
        self.log.append(&mut events)?;
        self.pending = false;
        Ok(())
    }

    /// Drops the events that were kept. From now on those of each step are kept, or none are.
    pub fn clear_events(&mut self, keeps: bool)
        ensures told { told self.new ≡ [] }
        ensures keeps { self.new.keeps ≡ keeps }
        ensures kept { self.new ≡ record self.old { log = self.new.log; pending = self.new.pending; keeps = self.new.keeps } }
    {
        self.log.clear();
        self.pending = false;
        self.keeps = keeps;
    }

    /// The tag of a body; 0 where it was given none. That of a body that is gone stays until another one in its slot is
    /// given one.
    pub fn tag_of(&self, body: Handle) -> u64
        ensures { result ≡ tag_of self.now.tags.items body }
    {
        tag_of(self.tags.as_slice(), body)
    }

    /// Gives a body a tag in place of the one that it has, whether it lives or not. Refused 1 where memory is wanting,
    /// and then no tag has changed.
    pub fn set_tag(&mut self, alloc: Global, body: Handle, tag: u64) -> Result<(), Refusal>
        ensures tagged { OnOk result (IsTagged (tagged self.old.tags.items body tag) self.old self.new) }
        ensures refused { OnErr result (IsTagged self.old.tags.items self.old self.new) }
        ensures memory_only { IsOkUnless result Refusal.NoMemory }
    {
        self.log_last(alloc)?;
        put_tag(&mut self.tags, body, tag)
    }

    /// Saves the world: keeps its value as JSON, in place of the text that was kept. What was found and listed stays.
    /// Refused 1 where memory is wanting, and then the old text stays too.
    pub fn save(&mut self, alloc: Global) -> Result<(), Refusal>
        ensures text { OnOk result (IsTextOf (value_of self.old.world.plain (totals_of (book_of self.old.world))) (string_bytes self.new.saved)) }
        ensures kept { self.new ≡ record self.old { saved = self.new.saved } }
        ensures refused { OnErr result (self.new ≡ self.old) }
        ensures memory_only { IsOkUnless result Refusal.NoMemory }
    {
        self.saved = text_of(alloc, &self.world)?;
        Ok(())
    }

    /// The world of a text in UTF-8, as `save` keeps it. Whoever is refused learns why: there is no JSON in the bytes,
    /// memory was wanting, or which clause of the format is broken first. Nothing lies on the desk yet.
    pub fn load(alloc: Global, text: &[u8]) -> Result<Desk, Unread>
        ensures loaded { IfOk result (λ desk. IsLoaded text.now desk.world) }
        ensures clear { IfOk result IsClear }
        ensures tags { IfOk result (λ desk. desk.tags.items ≡ []) }
        ensures refused { IfErr result (IsUnread text.now) }
    {
        let world = world_of_text(alloc, text)?;
        Ok(Desk::with(alloc, world))
    }

    /// Keeps the shapes over a region, in u, in place of those that were kept; the text and the contacts stay. Refused
    /// 5 where its corners are beyond their limits or exchanged, else 1 where memory is wanting, and then those that
    /// were kept stay too.
    pub fn region(&mut self, alloc: Global, bounds: &Box2) -> Result<(), Refusal>
        ensures found { OnOk result (self.new.found.items ≡ region bounds.now (posed_shapes self.old.world.plain.bodies)) }
        ensures allowed { OnOk result (is_region bounds.now ≡ true) }
        ensures kept { self.new ≡ record self.old { found = self.new.found } }
        ensures refused { OnErr result (self.new ≡ self.old) }
        ensures why { IfErr result (λ e. region_refusal bounds.now e) }
    {
        if !world_queries::is_region(bounds) {
            return Err(Refusal::OutOfRange);
        }
        self.found = world_queries::region(alloc, &self.world, bounds)?;
        Ok(())
    }

    /// Keeps those of the shapes over a region that the filter lets through, as `region` keeps all. Refused 5 as that,
    /// else 2 where the filter leaves out a body that doesn't live, else 1 where memory is wanting, and then those that
    /// were kept stay.
    pub fn filtered_region(
        &mut self,
        alloc: Global,
        bounds: &Box2,
        filter: QueryFilter,
    ) -> Result<(), Refusal>
        ensures found { OnOk result (self.new.found.items ≡ region bounds.now (shapes_through filter self.old.world.plain.bodies)) }
        ensures allowed { OnOk result ((is_region bounds.now ≡ true) × (filter_refusal self.old.world.plain filter ≡ None)) }
        ensures kept { self.new ≡ record self.old { found = self.new.found } }
        ensures refused { OnErr result (self.new ≡ self.old) }
        ensures why { IfErr result (λ e. filtered_refusal bounds.now (filter_refusal self.old.world.plain filter) e) }
    {
        if !world_queries::is_region(bounds) {
            return Err(Refusal::OutOfRange);
        }
        self.found = world_queries::filtered_region(alloc, &self.world, bounds, filter)?;
        Ok(())
    }

    /// Keeps what a ray hits of the shapes that the filter lets through, the nearest first, in place of what the last
    /// one hit; the text, the shapes and the contacts stay. Refused 5 where the start is beyond 2^36 u in a coordinate
    /// or the way beyond 2^28 u, else 2 where the filter leaves out a body that doesn't live, else 1 where memory is
    /// wanting, and then the hits that were kept stay too.
    pub fn all_hits(
        &mut self,
        alloc: Global,
        from: Vec2,
        along: Vec2,
        filter: QueryFilter,
    ) -> Result<(), Refusal>
        ensures hits { OnOk result (AreAllHits (beam_of from along) (shapes_through filter self.old.world.plain.bodies) self.new.hits.items) }
        ensures allowed { OnOk result (IsBeam (beam_of from along) × (filter_refusal self.old.world.plain filter ≡ None)) }
        ensures kept { self.new ≡ record self.old { hits = self.new.hits } }
        ensures refused { OnErr result (self.new ≡ self.old) }
        ensures why { IfErr result (λ e. ray_refusal from along (filter_refusal self.old.world.plain filter) e) }
    {
        if !world_queries::is_ray(from, along) {
            return Err(Refusal::OutOfRange);
        }
        self.hits = world_queries::all_hits(alloc, &self.world, from, along, filter)?;
        Ok(())
    }

    /// Keeps the contacts of the world, in place of those that were kept; the text and the shapes that were found stay.
    /// Refused 1 where memory is wanting, and then those that were kept stay too.
    pub fn list_contacts(&mut self, alloc: Global) -> Result<(), Refusal>
        ensures contacts { OnOk result (self.new.contacts.items ≡ self.old.world.plain.contacts) }
        ensures kept { self.new ≡ record self.old { contacts = self.new.contacts } }
        ensures refused { OnErr result (self.new ≡ self.old) }
        ensures memory_only { IsOkUnless result Refusal.NoMemory }
    {
        self.contacts = self.world.contacts().to_entries(alloc)?;
        Ok(())
    }

    /// The digest of the world.
    pub fn digest(&self) -> Result<[u8; 32], Refusal>
        ensures digest { IfOk result (λ bytes. bytes ≡ digest_of self.now.world.plain (totals_of (book_of self.now.world))) }
        ensures memory_only { IsOkUnless result Refusal.NoMemory }
    {
        digest(&self.world)
    }
}
