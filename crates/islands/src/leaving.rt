//! A mover that leaves its part. It changes places with the one at the front of the thread, and the front leaves: so no
//! other note is touched, and where the head of the part stands stays.

ghost use Rattle.std.specs.Prelude.{◌≡◌, ◌≤◌, ◌<◌, ◌+◌, ◌^◌, vec_capacity, IsSome, IfSome, length};
ghost use Rattle.islands.specs.Labels.{taken_out};
ghost use Rattle.islands.specs.Standing.{AreExchanged, AreInverse, slot_at};
ghost use Rattle.islands.specs.Packed.{IsPacked, IsStanding, InPart, by_slot, note_at, head_at, labels_by, name_of, IsFirstFrom, HasNoneBelow, IsLowestIn, IsLeftBy, IsDropped};

use crate::label::{IslandState, Label};
use crate::thread_nodes::{NodeEntry, exchange, slot_of};
use crate::threads::{Head, Note, name_of, part_at, part_of, set_label};

/// Lets a mover change places with the one at the front of its thread.
fn come_first(node_entries: &mut Vec<NodeEntry>, heads: &[Head], part: u32, slot: u32)
    requires inverse { AreInverse node_entries.old.items }
    requires part { part < length heads.now }
    requires there { slot < length node_entries.old.items }
    requires first { (head_at heads.now part).first < length node_entries.old.items }
    ensures exchanged { AreExchanged node_entries.old.items slot (slot_at node_entries.old.items (head_at heads.now part).first) node_entries.new.items }
    ensures capacity { vec_capacity node_entries.old ≤ vec_capacity node_entries.new }
{
    let front = slot_of(node_entries, heads[part as usize].first);
    exchange(node_entries, slot, front);
}

/// Takes the first node from the thread of a part.
fn drop_first(notes: &mut Vec<Option<Note>>, heads: &mut Vec<Head>, part: u32)
    requires packed { IsPacked notes.old.items heads.old.items }
    requires part { InPart notes.old.items part part }
    ensures dropped { IsDropped notes.old.items heads.old.items part notes.new.items heads.new.items }
    ensures capacity { vec_capacity notes.old ≤ vec_capacity notes.new }
    ensures heads_capacity { vec_capacity heads.old ≤ vec_capacity heads.new }
{
    let head = heads[part as usize];
    let gone = notes[head.first as usize].unwrap();
    notes[head.first as usize] = None;
    heads[part as usize] = Head {
        label: head.label,
        first: gone.next.unwrap_or(part),
        count: head.count - 1,
    };
}

/// The first slot of these whose mover is in the part; `None` where there is none.
fn next_member(
    node_entries: &[NodeEntry],
    notes: &[Option<Note>],
    part: u32,
    from: usize,
    to: usize,
) -> Option<u32>
    requires sizes { length node_entries.now ≡ length notes.now }
    requires few { to ≤ 2 ^ 32 }
    ensures found { IfSome result (λ slot. IsFirstFrom (by_slot node_entries.now notes.now) part from slot) }
{
    for slot in from..to {
        if part_of(node_entries, notes, slot as u32) == Some(part) {
            return Some(slot as u32);
        }
    }
    None
}

/// The lowest member of a part, looked for along its thread.
fn lowest_along(
    node_entries: &[NodeEntry],
    notes: &[Option<Note>],
    heads: &[Head],
    part: u32,
) -> u32
    requires packed { IsPacked notes.now heads.now }
    requires part { InPart notes.now part part }
    requires sizes { length node_entries.now ≡ length notes.now }
    requires inverse { AreInverse node_entries.now }
    ensures lowest { IsLowestIn (by_slot node_entries.now notes.now) part result }
{
    let mut low = slot_of(node_entries, part);
    let mut at = Some(heads[part as usize].first);
    while let Some(node) = at {
        low = low.min(slot_of(node_entries, node));
        at = notes[node as usize].unwrap().next;
    }
    low
}

/// The lowest member of a part that has none below the slot. The slots that follow are tried first, as many as there
/// are members, so that it costs by the fewer of the two.
fn lowest_from(
    node_entries: &[NodeEntry],
    notes: &[Option<Note>],
    heads: &[Head],
    part: u32,
    slot: usize,
) -> u32
    requires packed { IsPacked notes.now heads.now }
    requires part { InPart notes.now part part }
    requires sizes { length node_entries.now ≡ length notes.now }
    requires inverse { AreInverse node_entries.now }
    requires few { length node_entries.now ≤ 2 ^ 32 }
    requires slot { slot ≤ 2 ^ 32 }
    requires none { HasNoneBelow (by_slot node_entries.now notes.now) part slot }
    ensures lowest { IsLowestIn (by_slot node_entries.now notes.now) part result }
{
    let to = node_entries
        .len()
        .min(slot + heads[part as usize].count as usize);
    match next_member(node_entries, notes, part, slot, to) {
        Some(low) => low,
        None => lowest_along(node_entries, notes, heads, part),
    }
}

/// The lowest member of a part that the mover in the slot has left.
fn lowest_left(
    node_entries: &[NodeEntry],
    notes: &[Option<Note>],
    heads: &[Head],
    part: u32,
    slot: u32,
) -> u32
    requires packed { IsPacked notes.now heads.now }
    requires part { InPart notes.now part part }
    requires sizes { length node_entries.now ≡ length notes.now }
    requires inverse { AreInverse node_entries.now }
    requires few { length node_entries.now ≤ 2 ^ 32 }
    requires left { IsLeftBy (by_slot node_entries.now notes.now) heads.now part slot }
    ensures lowest { IsLowestIn (by_slot node_entries.now notes.now) part result }
{
    let name = name_of(heads, part);
    if name == slot {
        lowest_from(node_entries, notes, heads, part, slot as usize + 1)
    } else {
        name
    }
}

/// Takes a mover out of its part. Those that it leaves behind are loose, under their lowest slot.
pub(crate) fn leave(
    node_entries: &mut Vec<NodeEntry>,
    notes: &mut Vec<Option<Note>>,
    heads: &mut Vec<Head>,
    slot: u32,
)
    requires standing { IsStanding node_entries.old.items notes.old.items heads.old.items }
    requires mover { IsSome (note_at (by_slot node_entries.old.items notes.old.items) slot) }
    requires few { length notes.old.items ≤ 2 ^ 32 }
    ensures standing { IsStanding node_entries.new.items notes.new.items heads.new.items }
    ensures labels { labels_by node_entries.new.items notes.new.items heads.new.items ≡ taken_out (labels_by node_entries.old.items notes.old.items heads.old.items) slot }
    ensures size { length notes.new.items ≡ length notes.old.items }
    ensures node_entries_capacity { vec_capacity node_entries.old ≤ vec_capacity node_entries.new }
    ensures capacity { vec_capacity notes.old ≤ vec_capacity notes.new }
    ensures heads_capacity { vec_capacity heads.old ≤ vec_capacity heads.new }
{
    let part = part_at(node_entries, notes, slot);
    come_first(node_entries, heads, part, slot);
    drop_first(notes, heads, part);
    if heads[part as usize].count > 0 {
        let name = lowest_left(node_entries, notes, heads, part, slot);
        set_label(
            heads,
            part,
            Label {
                name,
                state: IslandState::Loose,
            },
        );
    }
}
