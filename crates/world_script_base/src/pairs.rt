//! Lists of two items.

use fixed_geom::Vec2;

/// An item of a list, as far as it matters there.
#[derive(Clone, Copy)]
pub(crate) enum Item {
    Coordinate(i64),
    Point(Vec2),
    Other,
}

/// A list of up to two items that matter.
#[derive(Clone, Copy)]
pub(crate) struct Pair {
    first: Item,
    second: Item,
    count: usize,
}

pub(crate) const NO_ITEMS: Pair = Pair {
    first: Item::Other,
    second: Item::Other,
    count: 0,
};

impl Pair {
    pub fn push(&mut self, item: Item) {
        match self.count {
            0 => self.first = item,
            1 => self.second = item,
            _ => {}
        }
        self.count = self.count.saturating_add(1);
    }

    pub fn vector(&self) -> Option<Vec2> {
        match (self.count, self.first, self.second) {
            (2, Item::Coordinate(x), Item::Coordinate(y)) => Some(Vec2 { x, y }),
            _ => None,
        }
    }

    pub fn ends(&self) -> Option<(Vec2, Vec2)> {
        match (self.count, self.first, self.second) {
            (2, Item::Point(first), Item::Point(second)) => Some((first, second)),
            _ => None,
        }
    }
}
