//! The slots of joints, read.

ghost use Rattle.std.specs.Prelude.{◌≡◌, ◌∷◌, ◌++◌, [], IfSome};
ghost use Rattle.loaded_text.specs.Joints.{JointSlotHolds, JointsHold};

use crate::joints::read_joint;
use crate::leaves::read_generation;
use crate::text::Text;
use body_handles::{MAX_SLOTS, SlotEntry, WORN_OUT};
use world_file_base::{SavedJoint, SavedJoints};

/// A slot, and what is in it.
#[derive(Clone, Copy)]
struct JointSlot {
    entry: SlotEntry,
    joint: Option<SavedJoint>,
}

/// A slot in which nothing is.
fn read_free(text: &mut Text) -> Option<JointSlot>
    ensures { IfSome result (λ slot. JointSlotHolds slot text.old.rest.now text.new.rest.now) }
{
    text.expect(b"{")?;
    let generation = read_generation(text, b"\"generation\":")?;
    text.expect(b"}")?;
    Some(JointSlot {
        entry: SlotEntry {
            generation,
            live: false,
        },
        joint: None,
    })
}

/// A slot in which a joint is. It isn't at its last generation.
fn read_taken(text: &mut Text) -> Option<JointSlot>
    ensures { IfSome result (λ slot. JointSlotHolds slot text.old.rest.now text.new.rest.now) }
{
    text.expect(b"{")?;
    let generation = read_generation(text, b"\"generation\":")?;
    let joint = read_joint(text, b",\"joint\":")?;
    text.expect(b"}")?;
    if generation == WORN_OUT {
        return None;
    }
    Some(JointSlot {
        entry: SlotEntry {
            generation,
            live: true,
        },
        joint: Some(joint),
    })
}

fn read_slot(text: &mut Text) -> Option<JointSlot>
    ensures { IfSome result (λ slot. JointSlotHolds slot text.old.rest.now text.new.rest.now) }
{
    let start = *text;
    if let Some(slot) = read_free(text) {
        return Some(slot);
    }
    *text = start;
    read_taken(text)
}

fn keep_slot(joints: &mut SavedJoints, slot: JointSlot) -> Option<()>
    ensures slot_entries { IfSome result (λ _. joints.new.slot_entries.items ≡ joints.old.slot_entries.items ++ slot.entry ∷ []) }
    ensures joints { IfSome result (λ _. joints.new.joints.items ≡ joints.old.joints.items ++ slot.joint ∷ []) }
{
    joints.slot_entries.push(slot.entry).ok()?;
    joints.joints.push(slot.joint).ok()
}

/// Reads the slots of joints, and adds them to those that there are.
pub(crate) fn add_joints(text: &mut Text, lead: &[u8], joints: &mut SavedJoints) -> Option<()>
    ensures { IfSome result (λ _. JointsHold lead.now joints.old joints.new text.old.rest.now text.new.rest.now) }
{
    text.expect(lead)?;
    text.expect(b"[")?;
    for count in 0..MAX_SLOTS + 1 {
        let more = text.has_item(count == 0)?;
        if !more {
            return Some(());
        }
        let slot = read_slot(text)?;
        keep_slot(joints, slot)?;
    }
    None
}
