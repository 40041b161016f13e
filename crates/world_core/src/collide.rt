//! The collide of a step: the shapes of the bodies, given to the contacts.

ghost use Rattle.std.specs.Prelude.{◌≡◌, ◌<◌, ◌≤◌, ◌*◌, ◌+◌, ◌++◌, All, OnOk, IfOk, length, []};
ghost use Rattle.colour_solver.specs.States.{places_from};
ghost use Rattle.std.specs.Result.{IsOkUnless};
ghost use Rattle.contacts_base.specs.Proxies.{number_of};
ghost use Rattle.contacts_base.specs.Changes.{keys_touching_only_in};
ghost use Rattle.contacts_base.specs.ChangedKeys.{AreRising};
ghost use Rattle.contacts.specs.Fates.{AreWithin, stirs_in};
ghost use Rattle.plain_world.specs.Bodies.{AreBodies, IsBody};
ghost use Rattle.plain_world.specs.Changes.{is_awake_in};
ghost use Rattle.plain_world.specs.InSlots.{is_carried_in};
ghost use Rattle.contacts_base.specs.Keys.{id_number};
ghost use Rattle.contacts.specs.Known.{found};
ghost use Rattle.world_core.specs.Inside.{AreKnown};
ghost use Rattle.world_core.specs.Named.{shape_of};
ghost use Rattle.world_rules.specs.Collide.{body_proxies, proxies_of, contacts_after};

use body_handles::MAX_SLOTS;
use contacts::{ContactTable, PairPiece, PairSweep, ShapesById, SurveyPiece, Touches};
use contacts_base::{Proxy, ShapeId};
use crew::PieceMap;
use fixed_geom::{Box2, Refusal};
use plain_world::{Body, surface_of};
use std::alloc::Global;
use std::marker::Model;
use std::mem;
use world_core_base::{BodyTable, JointTable};

/// Adds the shapes of an enabled body, in their order.
fn gather_body(broad: &mut PairSweep, slot: usize, body: &Body) -> Result<(), Refusal>
    requires slot { slot < MAX_SLOTS }
    requires body { IsBody body.now }
    requires before { All (λ other. number_of other < slot * 256) broad.old }
    ensures gathered { OnOk result (broad.new ≡ broad.old ++ body_proxies slot body.now) }
    ensures before { OnOk result (All (λ other. number_of other < (slot + 1) * 256) broad.new) }
    ensures memory_only { IsOkUnless result Refusal.NoMemory }
{
    if !body.enabled {
        return Ok(());
    }
    let dynamic = body.kind.is_dynamic();
    let stirs = body.stirs();
    let pose = body.pose();
    let defs = body.shapes.as_slice();
    let fats = body.fats.as_slice();
    for index in 0..defs.len() {
        broad.push(Proxy {
            id: ShapeId {
                slot: slot as u32,
                index: index as u8,
            },
            fat: fats[index],
            filter: defs[index].filter,
            dynamic,
            stirs,
            surface: surface_of(&defs[index]),
            shape: defs[index].shape,
            pose,
        })?;
    }
    Ok(())
}

/// Fills the broad phase with the shapes of all enabled bodies.
fn gather(broad: &mut PairSweep, bodies: &[Option<Body>]) -> Result<(), Refusal>
    requires few { length bodies.now ≤ MAX_SLOTS }
    requires bodies { AreBodies bodies.now }
    ensures gathered { OnOk result (broad.new ≡ proxies_of bodies.now) }
    ensures memory_only { IsOkUnless result Refusal.NoMemory }
{
    broad.clear();
    for (slot, entry) in bodies.iter().enumerate() {
        if let Some(body) = entry {
            gather_body(broad, slot, body)?;
        }
    }
    Ok(())
}

/// The shape of a body with this name, if it has one. Whoever asks reads a part of it, and what isn't read isn't
/// copied.
#[inline(always)]
fn shape_of(body: &Body, id: ShapeId) -> Option<Proxy>
    requires { IsBody body.now }
    ensures { result ≡ shape_of id body.now }
{
    if !body.enabled {
        return None;
    }
    let defs = body.shapes.as_slice();
    let fats = body.fats.as_slice();
    let index = usize::from(id.index);
    if index >= defs.len() {
        return None;
    }
    Some(Proxy {
        id,
        fat: fats[index],
        filter: defs[index].filter,
        dynamic: body.kind.is_dynamic(),
        stirs: body.stirs(),
        surface: surface_of(&defs[index]),
        shape: defs[index].shape,
        pose: body.pose(),
    })
}

/// Whether a body has a shape with this name, and stirs.
fn stirs_with(body: &Body, id: ShapeId) -> bool
    requires { IsBody body.now }
    ensures { result ≡ stirs_in (shape_of id body.now) }
{
    if !body.enabled {
        return false;
    }
    if usize::from(id.index) < body.shapes.as_slice().len() {
        body.stirs()
    } else {
        false
    }
}

/// The shape with this name, if its body is there and has it.
#[inline(always)]
fn shape_with_id(bodies: &[Option<Body>], id: ShapeId) -> Option<Proxy>
    requires { AreBodies bodies.now }
    ensures { result ≡ found (proxies_of bodies.now) (id_number id) }
{
    match bodies.get(id.slot as usize) {
        None => None,
        Some(None) => None,
        Some(Some(body)) => shape_of(body, id),
    }
}

/// Whether there is a shape with this name, and its body stirs.
fn stirs_by_id(bodies: &[Option<Body>], id: ShapeId) -> bool
    requires { AreBodies bodies.now }
    ensures { result ≡ stirs_in (found (proxies_of bodies.now) (id_number id)) }
{
    match bodies.get(id.slot as usize) {
        None => false,
        Some(None) => false,
        Some(Some(body)) => stirs_with(body, id),
    }
}

/// The table of a world's bodies, whose shapes a collide reads. Contracts see the table.
#[derive(Drop)]
pub struct BodyShapes {
    table: BodyTable,
}

impl Model for BodyShapes {
    ghost use Rattle.world_core_base.specs.Awake.{Bodies};
    ghost use Rattle.world_core.specs.Named.{AreShown};

    ghost Value = { Bodies };

    ghost view = { λ a. a.table };

    ghost invariant = { λ a. AreShown a.table.bodies a.table.pending };
}

impl BodyShapes {
    /// Each body has a mark or none. The function does nothing; its contract is the law.
    fn know_within(&self)
        ensures { AreWithin self.now.marks (proxies_of self.now.bodies) }
    {
        let _ = self.table.marks();
    }
}

impl ShapesById for BodyShapes {
    ghost proxies = { λ s. proxies_of s.bodies };

    ghost awake = { λ s. places_from is_awake_in 0 s.bodies };

    ghost carried = { λ s. places_from is_carried_in 0 s.bodies };

    ghost marks = { λ s. s.marks };

    #[inline(always)]
    fn shape(&self, id: ShapeId) -> Option<Proxy> {
        shape_with_id(self.table.bodies(), id)
    }

    fn stirs(&self, id: ShapeId) -> bool {
        stirs_by_id(self.table.bodies(), id)
    }

    fn awake(&self) -> &[u32] {
        self.table.awake()
    }

    fn carried(&self) -> &[u32] {
        self.table.carried()
    }

    fn overlapping(&self, wanted: &Box2) -> Result<Vec<u32>, Refusal> {
        self.table.boxes().overlapping(wanted)
    }

    fn gather(&self, broad: &mut PairSweep) -> Result<(), Refusal> {
        gather(broad, self.table.bodies())
    }

    fn marks(&self) -> &[bool] {
        self.table.marks().flags()
    }

    fn marked(&self) -> &[u32] {
        self.table.marks().slots()
    }

    fn taken(&mut self, alloc: Global) -> BodyShapes {
        BodyShapes {
            table: mem::replace(&mut self.table, BodyTable::new(alloc)),
        }
    }
}

/// Finds the near pairs of shapes whose bodies no joint keeps from colliding, and evaluates a contact for each of which
/// a body stirs: what the contacts become is pending then. Those of bodies that aren't marked are known from the
/// contacts that there are.
pub(crate) fn collide<M: PieceMap<PairPiece> + PieceMap<SurveyPiece<BodyShapes, JointTable>>>(
    mapper: &mut M,
    alloc: Global,
    contacts: &mut ContactTable,
    bodies: &mut BodyTable,
    joints: &mut JointTable,
) -> Result<Touches, Refusal>
    requires few { length bodies.old.bodies ≤ MAX_SLOTS }
    requires bodies { AreBodies bodies.old.bodies }
    requires flushed { bodies.old.pending ≡ 0 }
    requires known { AreKnown bodies.old.marks bodies.old.bodies joints.old.joints contacts.old.contacts }
    ensures bodies { bodies.new ≡ bodies.old }
    ensures joints { joints.new ≡ joints.old }
    ensures contacts { contacts.new.contacts ≡ contacts.old.contacts }
    ensures numbered { contacts.new.numbered ≡ contacts.old.numbered }
    ensures pending { OnOk result (contacts.new.pending ≡ contacts_after bodies.old.bodies joints.old.joints contacts.old.contacts) }
    ensures begin { IfOk result (λ touches. touches.begin.items ≡ keys_touching_only_in contacts.old.contacts (contacts_after bodies.old.bodies joints.old.joints contacts.old.contacts)) }
    ensures end { IfOk result (λ touches. touches.end.items ≡ keys_touching_only_in (contacts_after bodies.old.bodies joints.old.joints contacts.old.contacts) contacts.old.contacts) }
    ensures begin_rises { IfOk result (λ touches. AreRising touches.begin.items) }
    ensures end_rises { IfOk result (λ touches. AreRising touches.end.items) }
    ensures memory_only { IsOkUnless result Refusal.NoMemory }
{
    let mut shapes = BodyShapes {
        table: mem::replace(bodies, BodyTable::new(alloc)),
    };
    shapes.know_within();
    let touches = contacts.collide(mapper, &mut shapes, joints);
    let BodyShapes { table } = shapes;
    *bodies = table;
    touches
}
