//! Which bodies' shapes have moved since the last collide: marks by slot. A slot beyond them counts as marked.

ghost use Rattle.std.specs.Prelude.{◌≡◌};
ghost use Rattle.contacts_base.specs.Keys.{id_number};
ghost use Rattle.contacts.specs.Known.{either_moved};
ghost use Rattle.contacts.specs.Fates.{moved_by};

use contacts_base::{ContactKey, ShapeId};

/// Whether the shapes of the body in a slot have moved: it is marked, or is beyond the marks.
fn is_marked(marks: &[bool], id: ShapeId) -> bool
    ensures { result ≡ moved_by marks.now (id_number id) }
{
    match marks.get(id.slot as usize) {
        None => true,
        Some(marked) => *marked,
    }
}

/// Whether one of the two shapes has moved.
pub(crate) fn either_moved(marks: &[bool], key: ContactKey) -> bool
    ensures { result ≡ either_moved (moved_by marks.now) key }
{
    if is_marked(marks, key.first) {
        true
    } else {
        is_marked(marks, key.second)
    }
}
