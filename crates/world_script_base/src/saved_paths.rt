//! Where a saved world breaks a clause, for whoever has to mend it.
//!
//! `world_file` answers the clause alone. Its first four ask much of each body, joint and contact by itself. So each of
//! them is read here in a list of its own, by the readers that `world_file` has. Which value of it is to blame is found
//! by putting another one in its place, that would do, and reading it again.

use crate::saved_keys::{BODY, BODY_SLOT, CONTACT, JOINT, JOINT_SLOT, Key, POINT, SHAPE, SHAPES};
use crate::saved_ways::{Part, Way};
use fixed_geom::Refusal;
use serde_json::Value;
use shapes::MAX_SHAPES;
use std::alloc::Global;
use std::fmt;
use world_file::{MOST_TICKS, read};
use world_file_base::{
    Broken, Clause, Reader, Version, array_value, read_bodies, read_contacts, read_joints,
};

/// How many points a contact has at most.
const MAX_POINTS: usize = 2;

/// A list of a saved world.
#[derive(Clone, Copy, Debug, PartialEq, Eq)]
pub enum SavedList {
    Bodies,
    Joints,
    Contacts,
}

impl SavedList {
    /// The key under which the list stands.
    pub fn key(self) -> &'static str {
        match self {
            SavedList::Bodies => "bodies",
            SavedList::Joints => "joints",
            SavedList::Contacts => "contacts",
        }
    }
}

/// A place of a saved world: an item of one of its lists, counted from 0, and within it the value that is to blame,
/// where it is a single one.
#[derive(Clone, Copy, Debug, PartialEq, Eq)]
pub struct SavedPath {
    pub list: SavedList,
    pub index: usize,
    pub way: Option<Way>,
}

impl fmt::Display for SavedPath {
    fn fmt<W: fmt::Write>(&self, f: &mut fmt::Formatter<W>) -> fmt::Result {
        let (key, index) = (self.list.key(), self.index);
        write!(f, "{key}[{index}]")?;
        match self.way {
            Some(way) => write!(f, "{way}"),
            None => Ok(()),
        }
    }
}

/// By what the items of a world are read, and the clause that one of them may break.
#[derive(Clone, Copy)]
struct Question {
    alloc: Global,
    version: Version,
    most_ticks: u64,
    clause: Clause,
}

impl Question {
    fn of(alloc: Global, world: &Value, clause: Clause) -> Question {
        let number = |key: &str| world.get(key).and_then(Value::as_u64).unwrap_or(0);
        let version = if number("version") == 1 {
            Version::First
        } else {
            Version::Second
        };
        Question {
            alloc,
            version,
            most_ticks: number("step").saturating_mul(MOST_TICKS),
            clause,
        }
    }

    /// Reads the items of a list, and notes what they break.
    fn read_items(self, list: SavedList, items: &Value, reader: &mut Reader) -> Result<(), Broken> {
        match list {
            SavedList::Bodies => {
                let _read = read_bodies(
                    self.alloc,
                    reader,
                    Some(items),
                    self.version,
                    self.most_ticks,
                )?;
            }
            SavedList::Joints => {
                let _read = read_joints(self.alloc, reader, Some(items), self.version)?;
            }
            SavedList::Contacts => {
                let _read = read_contacts(self.alloc, reader, Some(items), self.version)?;
            }
        }
        Ok(())
    }

    /// What an item breaks in a list of its own, up to the clause.
    fn broken_by(self, list: SavedList, item: Value) -> Result<Option<Clause>, Broken> {
        let mut items = Vec::new(self.alloc);
        items.push(item)?;
        let alone = array_value(items);
        let mut reader = Reader::new();
        self.read_items(list, &alone, &mut reader)?;
        match reader.verdict(self.clause) {
            Err(Broken::Clause(broken)) => Ok(Some(broken)),
            _ => Ok(None),
        }
    }

    /// Whether an item breaks nothing, up to the clause, once this value of it is another one.
    fn is_mended(self, list: SavedList, item: &Value, way: Way, by: &str) -> Result<bool, Broken> {
        let mut mended = item.clone()?;
        let Some(value) = way.value_in(&mut mended) else {
            return Ok(false);
        };
        let Ok(other) = Value::from_str(self.alloc, by) else {
            return Ok(false);
        };
        *value = other;
        Ok(self.broken_by(list, mended)?.is_none())
    }

    /// The value of an item that is to blame: the first by which another one mends it.
    fn first_way(self, list: SavedList, item: &Value) -> Result<Option<Way>, Broken> {
        let mut search = Search {
            question: self,
            list,
            item,
            found: None,
        };
        match list {
            SavedList::Bodies => search.look_in_slot_of_body()?,
            SavedList::Joints => search.look_in_slot_of_joint()?,
            SavedList::Contacts => search.look_in_contact()?,
        }
        Ok(search.found)
    }

    /// The first of these items that breaks the clause, and none before it.
    fn first_of(self, list: SavedList, items: &[Value]) -> Result<Option<SavedPath>, Broken> {
        for (index, item) in items.iter().enumerate() {
            if self.broken_by(list, item.clone()?)? == Some(self.clause) {
                let way = self.first_way(list, item)?;
                return Ok(Some(SavedPath { list, index, way }));
            }
        }
        Ok(None)
    }

    /// The first item of a list that breaks the clause.
    fn first_in(self, list: SavedList, world: &Value) -> Result<Option<SavedPath>, Broken> {
        match world.get(list.key()) {
            Some(Value::Array(items)) => self.first_of(list, items.as_slice()),
            _ => Ok(None),
        }
    }

    fn first(self, world: &Value) -> Result<Option<SavedPath>, Broken> {
        for list in [SavedList::Bodies, SavedList::Joints, SavedList::Contacts] {
            let place = self.first_in(list, world)?;
            if place.is_some() {
                return Ok(place);
            }
        }
        Ok(None)
    }
}

/// A search for the value of an item that is to blame.
#[derive(Drop)]
struct Search<'a> {
    question: Question,
    list: SavedList,
    item: &'a Value,
    found: Option<Way>,
}

impl Search<'_> {
    /// Looks at a key of a part.
    fn try_key(&mut self, way: Way, texts: &[&str]) -> Result<(), Broken> {
        for text in texts {
            if self.question.is_mended(self.list, self.item, way, text)? {
                self.found = Some(way);
                return Ok(());
            }
        }
        Ok(())
    }

    /// Looks at a part's keys, if nothing was found before.
    fn look(&mut self, part: Part, keys: &[Key]) -> Result<(), Broken> {
        for place in 0..keys.len() {
            if self.found.is_some() {
                return Ok(());
            }
            let (key, _, _, texts) = keys[place];
            self.try_key(Way { part, key }, texts)?;
        }
        Ok(())
    }

    fn look_in_slot_of_body(&mut self) -> Result<(), Broken> {
        self.look(Part::Item, BODY_SLOT)?;
        self.look(Part::Within("body"), BODY)?;
        for index in 0..MAX_SHAPES {
            self.look(Part::Shape(index), SHAPE)?;
        }
        self.look(Part::Within("body"), SHAPES)
    }

    fn look_in_slot_of_joint(&mut self) -> Result<(), Broken> {
        self.look(Part::Item, JOINT_SLOT)?;
        self.look(Part::Within("joint"), JOINT)
    }

    fn look_in_contact(&mut self) -> Result<(), Broken> {
        for index in 0..MAX_POINTS {
            self.look(Part::Point(index), POINT)?;
        }
        self.look(Part::Item, CONTACT)
    }
}

/// The clause that a world breaks first, if it breaks one.
fn broken_clause(alloc: Global, world: &Value) -> Option<Clause> {
    match read(alloc, world) {
        Err(Broken::Clause(clause)) => Some(clause),
        _ => None,
    }
}

/// The first item of a text's saved world, in the order bodies, joints, contacts, that breaks by itself the clause that
/// the world breaks first. Its way leads to the first value by which another one would mend it, if there is such a
/// value. `None` where the clause isn't one item's doing, where the world breaks none, and where the text is no JSON.
pub fn broken_path(alloc: Global, text: &str) -> Result<Option<SavedPath>, Refusal> {
    let Ok(world) = Value::from_str(alloc, text) else {
        return Ok(None);
    };
    let Some(clause) = broken_clause(alloc, &world) else {
        return Ok(None);
    };
    Question::of(alloc, &world, clause)
        .first(&world)
        .map_err(Broken::refusal)
}
