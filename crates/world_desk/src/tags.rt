//! Tags of bodies by slot.

ghost use Rattle.std.specs.Prelude.{◌≡◌, ◌+◌, OnErr, OnOk};
ghost use Rattle.std.specs.Option.{option_copied};
ghost use Rattle.std.specs.Result.{IsOkUnless};
ghost use Rattle.world_desk.specs.Tags.{padded, tag_if, tag_of, tagged};

use crate::step_event::Tagged;
use fixed_geom::Refusal;
use world_core::Handle;

/// What stands in a slot of which no body has a tag.
const UNTAGGED: Tagged = Tagged {
    generation: 0,
    tag: 0,
};

fn tag_if(entry: Option<&Tagged>, generation: u32) -> u64
    ensures { result ≡ tag_if (option_copied entry.entry) generation }
{
    match entry {
        None => 0,
        Some(entry) => {
            if entry.generation == generation {
                entry.tag
            } else {
                0
            }
        }
    }
}

/// The tag of a body; 0 where it has none.
pub(crate) fn tag_of(tags: &[Tagged], body: Handle) -> u64
    ensures { result ≡ tag_of tags.now body }
{
    tag_if(tags.get(body.slot as usize), body.generation)
}

/// Makes the list so long that it has a slot. Refused 1 where memory is wanting, and then no tag has changed.
fn reach(tags: &mut Vec<Tagged>, slot: u32) -> Result<(), Refusal>
    ensures padded { OnOk result (tags.new.items ≡ padded (slot + 1) tags.old.items) }
    ensures refused { OnErr result (tags.new.items ≡ tags.old.items) }
    ensures memory_only { IsOkUnless result Refusal.NoMemory }
{
    let wanted = slot as usize + 1;
    if tags.len() < wanted {
        tags.resize(wanted, UNTAGGED)?;
    }
    Ok(())
}

/// Gives a body a tag. Refused 1 where memory is wanting, and then no tag has changed.
pub(crate) fn put_tag(tags: &mut Vec<Tagged>, body: Handle, tag: u64) -> Result<(), Refusal>
    ensures tagged { OnOk result (tags.new.items ≡ tagged tags.old.items body tag) }
    ensures refused { OnErr result (tags.new.items ≡ tags.old.items) }
    ensures memory_only { IsOkUnless result Refusal.NoMemory }
{
    reach(tags, body.slot)?;
    tags[body.slot as usize] = Tagged {
        generation: body.generation,
        tag,
    };
    Ok(())
}
