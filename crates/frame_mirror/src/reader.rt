//! The readers, which wait for nobody.

ghost use Rattle.std.specs.Prelude.{◌≡◌, IfOk, IfSome, OnErr, OnOk};
ghost use Rattle.std.specs.Result.{IsOkUnless};
ghost use mathlib.Core.List.{IsPrefix};
ghost use Rattle.shapes.specs.Rays.{IsBeam, beam_of};
ghost use Rattle.shape_rays.specs.Hits.{first_hit, region};
ghost use Rattle.world_core.specs.Frames.{View, pose_in};
ghost use Rattle.world_queries.specs.Framed.{framed_shapes};
ghost use Rattle.frame_mirror.specs.Lists.{EndsWith};

use crate::list::Mirrored;
use crate::mark::Mark;
use crate::slot::Showing;
use body_handles::Handle;
use contacts_base::ShapeId;
use crossbeam_utils::rule::Unruled;
use fixed_geom::{Box2, Refusal, Vec2};
use impulse_ledger::Total;
use shapes::Pose;
use std::alloc::Global;
use std::marker::Model;
use world_queries::{Hit, frame_ray, frame_region};

/// What a reader has of the two copies that are shown.
type Entry<J> = left_right::reader::Reader<Showing<Mark<J>>, (), Unruled>;

/// A reader of a mirror. Contracts see it as its mark: the published frames up to the one that it keeps.
#[derive(Drop)]
pub struct Reader<J: Mirrored> {
    entry: Option<Entry<J>>,
    kept: Mark<J>,
}

impl<J: Mirrored> Model for Reader<J> {
    ghost use Rattle.std.specs.Prelude.{List};
    ghost use Rattle.world_core.specs.Frames.{View};

    ghost Value = { List View };

    ghost view = { λ r. r.kept };
}

impl<J: Mirrored> Reader<J> {
    pub(crate) fn new(entry: Option<Entry<J>>, kept: Mark<J>) -> Reader<J>
        ensures { result ≡ kept }
    {
        Reader { entry, kept }
    }

    /// A later mark, if one is shown and can be had.
    fn later(&mut self) -> Option<Mark<J>>
        ensures same { self.new ≡ self.old }
        ensures later { IfSome result (λ m. IsPrefix self.old m) }
    {
        let entry = self.entry.take()?;
        match entry.enter_as::<Unruled>() {
            Ok(reading) => {
                let later = later_mark(reading.get(), &self.kept);
                self.entry = Some(reading.leave());
                later
            }
            Err(entry) => {
                self.entry = Some(entry);
                None
            }
        }
    }

    /// Takes a later mark, if one is shown and can be had.
    fn refresh(&mut self)
        ensures { IsPrefix self.old self.new }
    {
        if let Some(mark) = self.later() {
            self.kept = mark;
        }
    }

    /// Where an enabled body is, in a published frame that isn't before the reader's mark; `None` where the handle
    /// names none that lived then and was enabled. Afterwards the mark ends with that frame.
    pub fn pose(&mut self, handle: Handle) -> Option<Pose>
        ensures covers { IsPrefix self.old self.new }
        ensures answer { (f : View) × EndsWith self.new f × (result ≡ pose_in f.bodies handle) }
    {
        self.refresh();
        self.kept.frame().pose(handle)
    }

    /// The ledger's total, in mass·u/tick, in a published frame that isn't before the reader's mark. Afterwards the
    /// mark ends with that frame.
    pub fn total(&mut self) -> Total
        ensures covers { IsPrefix self.old self.new }
        ensures answer { (f : View) × EndsWith self.new f × (result ≡ f.booked) }
    {
        self.refresh();
        self.kept.frame().booked()
    }

    /// The ray's first hit, in a published frame that isn't before the reader's mark. The start, in u, is within 2^36
    /// in each coordinate, the way within 2^28. Afterwards the mark ends with that frame.
    pub fn ray(&mut self, from: Vec2, along: Vec2) -> Option<Hit>
        requires { IsBeam (beam_of from along) }
        ensures covers { IsPrefix self.old self.new }
        ensures answer { (f : View) × EndsWith self.new f × (result ≡ first_hit (beam_of from along) (framed_shapes f.bodies)) }
    {
        self.refresh();
        frame_ray(self.kept.frame(), from, along)
    }

    /// The shapes whose tight boxes overlap a region, ascending, in a published frame that isn't before the reader's
    /// mark. Afterwards the mark ends with that frame. Refused 1 where memory is wanting, and then the mark is as it
    /// was.
    pub fn region(&mut self, alloc: Global, bounds: &Box2) -> Result<Vec<ShapeId>, Refusal>
        ensures covers { OnOk result (IsPrefix self.old self.new) }
        ensures answer { IfOk result (λ found. (f : View) × EndsWith self.new f × (found.items ≡ region bounds.now (framed_shapes f.bodies))) }
        ensures same { OnErr result (self.new ≡ self.old) }
        ensures memory_only { IsOkUnless result Refusal.NoMemory }
    {
        match self.later() {
            Some(mark) => {
                let found = frame_region(alloc, mark.frame(), bounds)?;
                self.kept = mark;
                Ok(found)
            }
            None => frame_region(alloc, self.kept.frame(), bounds),
        }
    }

    /// A mark of all frames up to the one that this reader keeps.
    pub fn seen(&self) -> Result<Mark<J>, Refusal>
        ensures same { IfOk result (λ m. m ≡ self.now) }
        ensures memory_only { IsOkUnless result Refusal.NoMemory }
    {
        self.kept.try_copy()
    }

    /// Takes a mark that it was told: afterwards the reader's mark covers that one, and what it covered before.
    pub fn learn(&mut self, mark: Mark<J>)
        ensures own { IsPrefix self.old self.new }
        ensures other { IsPrefix mark self.new }
    {
        if !self.kept.covers(&mark) {
            self.kept = mark;
        }
    }
}

/// A copy of the mark that is shown, where that has more frames than the reader's.
fn later_mark<J: Mirrored>(shown: &Showing<Mark<J>>, kept: &Mark<J>) -> Option<Mark<J>>
    ensures { IfSome result (λ m. IsPrefix kept.now m) }
{
    let top = shown.slot.top.get()?;
    if kept.covers(top) {
        return None;
    }
    top.try_copy().ok()
}
