//! What the extended form tells: all bodies, the touching contacts and the joints.

use crate::answers::{BodyList, JointReport};
use crate::pen::Pen;
use body_handles::{Handle, SlotEntry};
use contacts_base::{ContactEntry, ContactPoint};
use plain_world::{Body, Plain, SetName};
use std::fmt;
use world_file_base::kind_name;

impl<'a, W: fmt::Write> Pen<'a, W> {
    fn body(&mut self, id: Handle, body: &Body) {
        let view = body.view();
        self.text("{\"at\":");
        self.vector(view.at);
        self.text(",\"facing\":");
        self.facing(view.facing);
        self.text(",\"id\":");
        self.id(id);
        self.text(",\"inertia\":");
        self.value(body.mass.inertia);
        self.text(",\"kind\":\"");
        self.text(kind_name(body.kind));
        self.text("\",\"l\":\"");
        self.value(view.l);
        self.text("\",\"mass\":");
        self.value(body.mass.mass);
        self.text(",\"p\":");
        self.vector(view.p);
        self.text(",\"set\":\"");
        self.set(view.set);
        self.text("\"");
        if let Some(course) = view.course {
            self.course(course);
        }
        self.text("}");
    }

    /// Writes the body of a slot, if it has one that is asked for, and says whether it has.
    fn body_in(&mut self, list: BodyList<'_>, slot: u32, entry: &SlotEntry, count: usize) -> bool {
        let Some(Some(body)) = list.bodies.get(slot as usize) else {
            return false;
        };
        if list.awake && body.standing() != SetName::Awake {
            return false;
        }
        self.comma(count);
        let generation = entry.generation;
        self.body(Handle { slot, generation }, body);
        true
    }

    pub fn body_list(&mut self, list: BodyList<'_>) {
        self.text("{\"bodies\":[");
        let (mut slot, mut count) = (0u32, 0usize);
        for entry in list.slot_entries {
            if self.body_in(list, slot, entry, count) {
                count = count.saturating_add(1);
            }
            slot = slot.saturating_add(1);
        }
        self.text("]}");
    }

    fn point(&mut self, point: ContactPoint) {
        self.text("{\"normal\":");
        self.vector(point.normal);
        self.text(",\"push\":");
        self.value(point.normal_impulse);
        self.text(",\"ra\":");
        self.vector(point.ra);
        self.text(",\"rb\":");
        self.vector(point.rb);
        self.text(",\"sep\":");
        self.value(point.separation);
        self.text(",\"slip\":");
        self.value(point.tangent_impulse);
        self.text("}");
    }

    fn points(&mut self, entry: &ContactEntry) {
        self.text("[");
        if let Some(point) = entry.contact.first() {
            self.point(point);
        }
        if let Some(point) = entry.contact.second() {
            self.text(",");
            self.point(point);
        }
        self.text("]");
    }

    fn touch(&mut self, entry: &ContactEntry, slot_entries: Option<&[SlotEntry]>) {
        self.text("{\"a\":");
        self.shape(entry.key.first, slot_entries);
        self.text(",\"b\":");
        self.shape(entry.key.second, slot_entries);
        self.text(",\"points\":");
        self.points(entry);
        self.text("}");
    }

    pub fn touching(&mut self, plain: &Plain, ids: bool) {
        let slot_entries = if ids {
            Some(plain.slot_entries())
        } else {
            None
        };
        self.text("{\"contacts\":[");
        let mut count = 0usize;
        for entry in plain.contacts() {
            if entry.contact.is_touching() {
                self.comma(count);
                self.touch(entry, slot_entries);
                count = count.saturating_add(1);
            }
        }
        self.text("]}");
    }

    fn joint(&mut self, report: &JointReport) {
        self.text("{\"a\":");
        self.id(report.a);
        self.text(",\"b\":");
        self.id(report.b);
        let (first, second) = report.ends;
        self.text(",\"ends\":[");
        self.vector(first);
        self.text(",");
        self.vector(second);
        self.text("],\"id\":");
        self.id(report.joint);
        self.text(",\"impulse\":");
        self.value(report.impulse);
        self.text(",\"length\":");
        self.value(report.length);
        self.text(",\"set\":\"");
        self.set(report.set);
        self.text("\",\"stretch\":");
        self.value(report.stretch);
        self.text("}");
    }

    pub fn joints(&mut self, reports: &[JointReport]) {
        self.text("{\"joints\":[");
        for (index, report) in reports.iter().enumerate() {
            self.comma(index);
            self.joint(report);
        }
        self.text("]}");
    }
}
