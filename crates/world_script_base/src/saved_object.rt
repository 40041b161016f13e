//! What was seen of an object of a saved world: which of its form's keys it has.

use crate::saved_keys::{Key, Kind};

/// A key of a form: its place among those of the form, and what its value has to be.
#[derive(Clone, Copy)]
pub(crate) struct Field {
    pub(crate) place: usize,
    pub(crate) kind: Kind,
}

/// The bit of the key in this place.
fn bit_of(place: usize) -> u32 {
    match u32::try_from(place) {
        Ok(place) => 1u32.checked_shl(place).unwrap_or(0),
        Err(_) => 0,
    }
}

/// The key at a place of a form, if it has this name.
fn field_at(keys: &[Key], place: usize, name: &str) -> Option<Field> {
    let (key, kind, _, _) = *keys.get(place)?;
    if key == name {
        Some(Field { place, kind })
    } else {
        None
    }
}

/// What a key is to a form, if an object of it may have the key. The place where it is expected is looked at first.
pub(crate) fn field_of(keys: &[Key], expected: usize, name: &str) -> Option<Field> {
    let field = field_at(keys, expected, name);
    if field.is_some() {
        return field;
    }
    for place in 0..keys.len() {
        let field = field_at(keys, place, name);
        if field.is_some() {
            return field;
        }
    }
    None
}

/// The bits of the keys that each object of a form has.
pub(crate) fn needed_of(keys: &[Key]) -> u32 {
    let mut needed = 0;
    for place in 0..keys.len() {
        let (_, _, is_needed, _) = keys[place];
        if is_needed {
            needed |= bit_of(place);
        }
    }
    needed
}

/// What was read of an object: the keys that it has, those whose last value isn't what it has to be, and whether it has
/// a key that isn't of its form.
#[derive(Clone, Copy)]
pub(crate) struct Seen {
    keys: u32,
    bad: u32,
    has_other: bool,
    /// The place of the key that comes next where keys come in their order.
    next: usize,
}

impl Seen {
    /// Nothing was read.
    pub(crate) fn nothing() -> Seen {
        Seen {
            keys: 0,
            bad: 0,
            has_other: false,
            next: 0,
        }
    }

    /// The same with one more value, of the key at a place. Of a key that comes again the last value stands.
    pub(crate) fn with(self, place: usize, good: bool) -> Seen {
        let bit = bit_of(place);
        let bad = if good {
            self.bad & !bit
        } else {
            self.bad | bit
        };
        Seen {
            keys: self.keys | bit,
            bad,
            next: place.saturating_add(1),
            ..self
        }
    }

    /// The same with a key that isn't of the form.
    pub(crate) fn with_other(self) -> Seen {
        Seen {
            has_other: true,
            ..self
        }
    }

    /// The place of the key that is expected next.
    pub(crate) fn next(self) -> usize {
        self.next
    }

    /// Whether an object with these keys may be of a form each of whose objects has the keys that are needed.
    pub(crate) fn may_be(self, needed: u32) -> bool {
        !self.has_other && self.bad == 0 && self.keys & needed == needed
    }
}
