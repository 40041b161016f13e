//! Where each slot stands in the threads.

ghost use Rattle.std.specs.Prelude.{◌≡◌, ◌<◌, ◌≤◌, ◌^◌, length, slice_set, vec_capacity};
ghost use Rattle.islands.specs.Standing.{AreInverse, AreExchanged, AreWidened, IsPut, node_at, own_node_entry, slot_at};

use crate::room::push_in_room;

/// Threads run through nodes, which are numbered as slots are, and each slot stands at a node of its own. So a
/// mover leaves from the front of its thread: it has changed places with the one that stood there.
#[derive(Clone, Copy)]
pub(crate) struct NodeEntry {
    // The node where the slot of this number stands.
    pub(crate) node: u32,
    // The slot that stands at the node of this number.
    pub(crate) slot: u32,
}

fn own_node_entry(number: u32) -> NodeEntry
    ensures { result ≡ own_node_entry number }
{
    NodeEntry {
        node: number,
        slot: number,
    }
}

/// The node where a slot stands.
pub(crate) fn node_of(node_entries: &[NodeEntry], slot: u32) -> u32
    ensures { result ≡ node_at node_entries.now slot }
{
    match node_entries.get(slot as usize) {
        None => slot,
        Some(entry) => entry.node,
    }
}

/// The slot that stands at a node.
pub(crate) fn slot_of(node_entries: &[NodeEntry], node: u32) -> u32
    ensures { result ≡ slot_at node_entries.now node }
{
    match node_entries.get(node as usize) {
        None => node,
        Some(entry) => entry.slot,
    }
}

fn put_node(node_entries: &mut Vec<NodeEntry>, slot: u32, node: u32)
    requires { slot < length node_entries.old.items }
    ensures node_entries { node_entries.new.items ≡ slice_set node_entries.old.items slot (record { node = node; slot = slot_at node_entries.old.items slot }) }
    ensures capacity { vec_capacity node_entries.old ≤ vec_capacity node_entries.new }
{
    let entry = node_entries[slot as usize];
    node_entries[slot as usize] = NodeEntry {
        node,
        slot: entry.slot,
    };
}

fn put_slot(node_entries: &mut Vec<NodeEntry>, node: u32, slot: u32)
    requires { node < length node_entries.old.items }
    ensures node_entries { node_entries.new.items ≡ slice_set node_entries.old.items node (record { node = node_at node_entries.old.items node; slot = slot }) }
    ensures capacity { vec_capacity node_entries.old ≤ vec_capacity node_entries.new }
{
    let entry = node_entries[node as usize];
    node_entries[node as usize] = NodeEntry {
        node: entry.node,
        slot,
    };
}

/// Lets a slot stand at a node.
fn put(node_entries: &mut Vec<NodeEntry>, slot: u32, node: u32)
    requires slot { slot < length node_entries.old.items }
    requires node { node < length node_entries.old.items }
    ensures put { IsPut node_entries.old.items slot node node_entries.new.items }
    ensures capacity { vec_capacity node_entries.old ≤ vec_capacity node_entries.new }
{
    put_node(node_entries, slot, node);
    put_slot(node_entries, node, slot);
}

/// Two slots change places.
pub(crate) fn exchange(node_entries: &mut Vec<NodeEntry>, a: u32, b: u32)
    requires inverse { AreInverse node_entries.old.items }
    requires first { a < length node_entries.old.items }
    requires second { b < length node_entries.old.items }
    ensures exchanged { AreExchanged node_entries.old.items a b node_entries.new.items }
    ensures capacity { vec_capacity node_entries.old ≤ vec_capacity node_entries.new }
{
    let m = node_of(node_entries, a);
    let n = node_of(node_entries, b);
    put(node_entries, a, n);
    put(node_entries, b, m);
}

/// Makes the list so long, for which there is room. The new slots stand at the nodes of their numbers.
pub(crate) fn pad_node_entries(node_entries: &mut Vec<NodeEntry>, slots: usize)
    requires room { slots ≤ vec_capacity node_entries.old }
    requires few { slots ≤ 2 ^ 32 }
    ensures widened { AreWidened node_entries.old.items slots node_entries.new.items }
    ensures capacity { vec_capacity node_entries.old ≤ vec_capacity node_entries.new }
{
    for number in node_entries.len()..slots {
        push_in_room(node_entries, own_node_entry(number as u32));
    }
}
