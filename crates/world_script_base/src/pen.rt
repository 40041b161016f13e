//! The parts of an answer.

use crate::answers::{Answer, SeatReport};
use body_handles::{Handle, IdText, SlotEntry};
use contacts_base::{ContactKey, ShapeId};
use event_feed::Events;
use fixed_geom::{Refusal, Rot, Vec2};
use impulse_ledger::{Cause, Ledger, Total};
use plain_world::{BodyView, Course, SetName};
use shape_rays::Hit;
use std::fmt;

/// Writes the parts of an answer one after another. After one that fails no more is written.
#[derive(Drop)]
pub(crate) struct Pen<'a, W: fmt::Write> {
    f: &'a mut fmt::Formatter<W>,
    written: fmt::Result,
}

impl<'a, W: fmt::Write> Pen<'a, W> {
    pub fn new(f: &'a mut fmt::Formatter<W>) -> Pen<'a, W> {
        Pen { f, written: Ok(()) }
    }

    /// Whether all was written.
    pub fn written(&self) -> fmt::Result {
        self.written
    }

    pub(crate) fn text(&mut self, text: &str) {
        if self.written.is_ok() {
            self.written = self.f.write_str(text);
        }
    }

    pub(crate) fn value<D: fmt::Display + Copy>(&mut self, value: D) {
        if self.written.is_ok() {
            self.written = write!(self.f, "{value}");
        }
    }

    pub fn answer(&mut self, answer: &Answer<'_>) {
        match answer {
            Answer::Done => self.text("{\"done\":true}"),
            Answer::Body(handle) => self.made("{\"body\":", *handle),
            Answer::Joint(handle) => self.made("{\"joint\":", *handle),
            Answer::Stepped(step, events, slot_entries) => self.step(*step, events, *slot_entries),
            Answer::Shown(view) => self.view(view),
            Answer::Ledger(ledger) => self.ledger(ledger),
            Answer::Hit(hit, slot_entries) => self.hit(*hit, *slot_entries),
            Answer::Shapes(shapes, slot_entries) => self.shapes(shapes.as_slice(), *slot_entries),
            Answer::Bodies(list) => self.body_list(*list),
            Answer::Contacts(plain, ids) => self.touching(plain, *ids),
            Answer::Joints(joints) => self.joints(joints.as_slice()),
            Answer::Digest(digest) => self.digest(digest),
            Answer::World(world) => self.world(world.as_str()),
            Answer::Crowd(journal, seats) => self.crowd(*journal, seats.as_slice()),
            Answer::Refused(refusal) => self.refusal(*refusal),
            Answer::Bad(line) => self.bad(*line),
        }
    }

    /// Writes a byte by two hexadecimal digits.
    fn digits(&mut self, byte: u8) {
        if self.written.is_ok() {
            self.written = write!(self.f, "{byte:02x}");
        }
    }

    fn digest(&mut self, digest: &[u8; 32]) {
        self.text("{\"digest\":\"");
        for byte in digest {
            self.digits(*byte);
        }
        self.text("\"}");
    }

    /// Writes what stands between two items of a list: nothing before the first.
    pub(crate) fn comma(&mut self, index: usize) {
        if index > 0 {
            self.text(",");
        }
    }

    pub(crate) fn id(&mut self, handle: Handle) {
        self.text("\"");
        self.value(IdText(handle));
        self.text("\"");
    }

    fn made(&mut self, what: &str, handle: Handle) {
        self.text(what);
        self.id(handle);
        self.text("}");
    }

    fn bad(&mut self, line: u64) {
        self.text("{\"bad\":");
        self.value(line);
        self.text("}");
    }

    fn refusal(&mut self, refusal: Refusal) {
        self.text("{");
        if let Refusal::BadFile(clause) = refusal {
            self.text("\"clause\":");
            self.value(clause);
            self.text(",");
        }
        self.text("\"refused\":");
        self.value(refusal.number());
        self.text("}");
    }

    /// Writes the id of the body in a slot after what stands before it, where the slot entries are given.
    fn id_in(&mut self, slot: u32, slot_entries: Option<&[SlotEntry]>) {
        if let Some(entry) = slot_entries.and_then(|slot_entries| slot_entries.get(slot as usize)) {
            self.text(",");
            self.id(Handle {
                slot,
                generation: entry.generation,
            });
        }
    }

    /// Writes a shape, with its body's id where the slot entries are given.
    pub(crate) fn shape(&mut self, shape: ShapeId, slot_entries: Option<&[SlotEntry]>) {
        self.text("[");
        self.value(shape.slot);
        self.text(",");
        self.value(shape.index);
        self.id_in(shape.slot, slot_entries);
        self.text("]");
    }

    fn contact(&mut self, contact: &ContactKey, slot_entries: Option<&[SlotEntry]>) {
        self.text("[");
        self.shape(contact.first, slot_entries);
        self.text(",");
        self.shape(contact.second, slot_entries);
        self.text("]");
    }

    fn contacts(&mut self, contacts: &[ContactKey], slot_entries: Option<&[SlotEntry]>) {
        self.text("[");
        for (index, contact) in contacts.iter().enumerate() {
            self.comma(index);
            self.contact(contact, slot_entries);
        }
        self.text("]");
    }

    fn bodies(&mut self, handles: &[Handle]) {
        self.text("[");
        for (index, handle) in handles.iter().enumerate() {
            self.comma(index);
            self.id(*handle);
        }
        self.text("]");
    }

    fn step(&mut self, step: u64, events: &Events, slot_entries: Option<&[SlotEntry]>) {
        self.text("{\"begin\":");
        self.contacts(events.begin(), slot_entries);
        self.text(",\"end\":");
        self.contacts(events.end(), slot_entries);
        self.text(",\"slept\":");
        self.bodies(events.slept());
        self.text(",\"step\":");
        self.value(step);
        self.text(",\"woke\":");
        self.bodies(events.woke());
        self.text("}");
    }

    fn pair(&mut self, first: i64, second: i64) {
        self.text("[");
        self.value(first);
        self.text(",");
        self.value(second);
        self.text("]");
    }

    pub(crate) fn vector(&mut self, vector: Vec2) {
        self.pair(vector.x, vector.y);
    }

    pub(crate) fn facing(&mut self, facing: Rot) {
        self.pair(facing.c, facing.s);
    }

    pub(crate) fn set(&mut self, set: SetName) {
        match set {
            SetName::Static => self.text("static"),
            SetName::Disabled => self.text("disabled"),
            SetName::Awake => self.text("awake"),
            SetName::Sleeping(island) => {
                self.text("sleeping ");
                self.value(island);
            }
        }
    }

    fn view(&mut self, view: &BodyView) {
        self.text("{\"at\":");
        self.vector(view.at);
        self.text(",\"facing\":");
        self.facing(view.facing);
        self.text(",\"l\":\"");
        self.value(view.l);
        self.text("\",\"p\":");
        self.vector(view.p);
        self.text(",\"set\":\"");
        self.set(view.set);
        self.text("\"");
        if let Some(course) = view.course {
            self.course(course);
        }
        self.text("}");
    }

    pub(crate) fn course(&mut self, course: Course) {
        self.text(",\"spin\":");
        self.value(course.spin);
        self.text(",\"velocity\":");
        self.vector(course.velocity);
    }

    fn total(&mut self, total: Total) {
        self.text("[\"");
        self.value(total.x);
        self.text("\",\"");
        self.value(total.y);
        self.text("\"]");
    }

    fn cause(&mut self, key: &str, ledger: &Ledger, cause: Cause) {
        self.text(key);
        self.total(ledger.total_of(cause));
    }

    fn ledger(&mut self, ledger: &Ledger) {
        self.cause("{\"causes\":{\"clamp\":", ledger, Cause::Clamp);
        self.cause(",\"command\":", ledger, Cause::Command);
        self.cause(",\"departed\":", ledger, Cause::Departed);
        self.cause(",\"gravity\":", ledger, Cause::Gravity);
        self.cause(",\"immovable\":", ledger, Cause::Immovable);
        self.cause(",\"rest\":", ledger, Cause::Rest);
        self.text("},\"total\":");
        self.total(ledger.total());
        self.text("}");
    }

    fn hit(&mut self, hit: Option<Hit>, slot_entries: Option<&[SlotEntry]>) {
        self.text("{\"hit\":");
        match hit {
            Some(hit) => {
                self.text("{\"fraction\":");
                self.value(hit.fraction);
                self.text(",\"shape\":");
                self.shape(hit.shape, slot_entries);
                self.text("}");
            }
            None => self.text("null"),
        }
        self.text("}");
    }

    fn shapes(&mut self, shapes: &[ShapeId], slot_entries: Option<&[SlotEntry]>) {
        self.text("{\"shapes\":[");
        for (index, shape) in shapes.iter().enumerate() {
            self.comma(index);
            self.shape(*shape, slot_entries);
        }
        self.text("]}");
    }

    fn world(&mut self, world: &str) {
        self.text("{\"world\":");
        self.text(world);
        self.text("}");
    }

    fn seat(&mut self, seat: &SeatReport) {
        self.text("{\"accepted\":");
        self.value(seat.accepted);
        self.text(",\"pushed\":");
        self.total(seat.pushed);
        self.text("}");
    }

    fn crowd(&mut self, journal: u64, seats: &[SeatReport]) {
        self.text("{\"journal\":");
        self.value(journal);
        self.text(",\"seats\":[");
        for (index, seat) in seats.iter().enumerate() {
            self.comma(index);
            self.seat(seat);
        }
        self.text("]}");
    }
}
