//! Bodies and islands as words.

ghost use Rattle.std.specs.Prelude.{◌≡◌};
ghost use Rattle.world_digest.specs.BodyWords.{body_words, box_words, filter_words, form_word, form_words, island_state_word, kind_word, kind_words, label_words, mass_words, motion_words, slot_entry_words, shape_words, sleep_word, state_words, vector_words};
ghost use Rattle.world_digest.specs.Sums.{absorbed_all};

use crate::sums::Sums;
use crate::words::{Words, feed_all};
use body_handles::SlotEntry;
use fixed_geom::{Box2, Vec2};
use islands::{IslandState, Label};
use momenta::{MassData, Motion};
use plain_world::{Body, Kind};
use shapes::{Filter, Shape, ShapeDef};

impl Words for Vec2 {
    ghost words = { λ v. vector_words v };

    #[inline(always)]
    fn feed(&self, sums: &mut Sums) {
        sums.integer(self.x);
        sums.integer(self.y);
    }
}

impl Words for SlotEntry {
    ghost words = { λ p. slot_entry_words p };

    fn feed(&self, sums: &mut Sums) {
        sums.natural(u64::from(self.generation));
        sums.truth(self.live);
    }
}

fn form_word(shape: &Shape) -> u64
    ensures { result ≡ form_word shape.now }
{
    match shape {
        Shape::Circle {
            center: _,
            radius: _,
        } => 0,
        Shape::Capsule {
            first: _,
            second: _,
            radius: _,
        } => 1,
        Shape::Segment {
            first: _,
            second: _,
        } => 2,
    }
}

impl Words for Shape {
    ghost words = { λ s. form_words s };

    fn feed(&self, sums: &mut Sums) {
        sums.natural(form_word(self));
        self.first_end().feed(sums);
        self.second_end().feed(sums);
        sums.integer(self.radius());
    }
}

impl Words for Filter {
    ghost words = { λ f. filter_words f };

    fn feed(&self, sums: &mut Sums) {
        sums.natural(self.category);
        sums.natural(self.mask);
        sums.integer(i64::from(self.group));
    }
}

impl Words for ShapeDef {
    ghost words = { λ d. shape_words d };

    fn feed(&self, sums: &mut Sums) {
        self.shape.feed(sums);
        sums.integer(self.friction);
        sums.integer(self.restitution);
        self.filter.feed(sums);
    }
}

impl Words for Box2 {
    ghost words = { λ b. box_words b };

    fn feed(&self, sums: &mut Sums) {
        self.lo.feed(sums);
        self.hi.feed(sums);
    }
}

fn kind_word(kind: Kind) -> u64
    ensures { result ≡ kind_word kind }
{
    match kind {
        Kind::Static => 0,
        Kind::Kinematic(_) => 1,
        Kind::Dynamic => 2,
    }
}

impl Words for Kind {
    ghost words = { λ k. kind_words k };

    fn feed(&self, sums: &mut Sums) {
        let course = self.carried_by();
        sums.natural(kind_word(*self));
        course.velocity.feed(sums);
        sums.integer(course.spin);
    }
}

impl Words for Motion {
    ghost words = { λ m. motion_words m };

    #[inline(always)]
    fn feed(&self, sums: &mut Sums) {
        self.p.feed(sums);
        sums.wide(self.l);
        self.x.feed(sums);
        sums.integer(self.rot.c);
        sums.integer(self.rot.s);
    }
}

impl Words for MassData {
    ghost words = { λ m. mass_words m };

    fn feed(&self, sums: &mut Sums) {
        sums.integer(self.mass);
        sums.integer(self.inertia);
    }
}

fn sleep_word(asleep: Option<u32>) -> u64
    ensures { result ≡ sleep_word asleep }
{
    match asleep {
        None => 0,
        Some(name) => u64::from(name) + 1,
    }
}

/// Whether it is enabled, with whom it sleeps, and its timer.
fn feed_state(body: &Body, sums: &mut Sums)
    ensures { sums.new ≡ absorbed_all sums.old (state_words body.now) }
{
    sums.truth(body.enabled);
    sums.natural(sleep_word(body.asleep));
    sums.natural(body.timer);
}

impl Words for Body {
    ghost words = { λ b. body_words b };

    fn feed(&self, sums: &mut Sums) {
        self.motion.feed(sums);
        self.mass.feed(sums);
        self.kind.feed(sums);
        feed_state(self, sums);
        feed_all(self.shapes.as_slice(), sums);
        feed_all(self.fats.as_slice(), sums);
    }
}

fn island_state_word(state: IslandState) -> u64
    ensures { result ≡ island_state_word state }
{
    match state {
        IslandState::Whole => 0,
        IslandState::Loose => 1,
        IslandState::Asleep => 2,
    }
}

impl Words for Label {
    ghost words = { λ l. label_words l };

    fn feed(&self, sums: &mut Sums) {
        sums.natural(u64::from(self.name));
        sums.natural(island_state_word(self.state));
    }
}
