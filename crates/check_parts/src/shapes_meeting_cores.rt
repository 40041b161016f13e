//! Placements of two shapes whose cores meet, with their points of contact.

use crate::shapes_placements::Core::{Ball, Bar, Cut, Line, Mast, Post, Wall};
use crate::shapes_placements::Row;
use fixed_geom::UNIT;

/// Equal centres and equal directions.
pub(crate) const CORES_ALONG_ONE_ANOTHER: [Row; 9] = [
    (
        [Ball, Ball],
        [0, 0],
        (0, [0, UNIT, -20000, 0, 0, 0, 0]),
        None,
    ),
    (
        [Ball, Bar],
        [0, 0],
        (0, [0, UNIT, -20000, 0, 0, 0, 0]),
        None,
    ),
    (
        [Ball, Line],
        [0, 0],
        (0, [0, UNIT, -10000, 0, 5000, 0, 5000]),
        None,
    ),
    (
        [Bar, Ball],
        [0, 0],
        (2, [0, UNIT, -20000, 0, 0, 0, 0]),
        None,
    ),
    (
        [Bar, Bar],
        [0, 0],
        (0, [0, UNIT, -20000, -30000, 0, -30000, 0]),
        Some((1, [0, UNIT, -20000, 30000, 0, 30000, 0])),
    ),
    (
        [Bar, Line],
        [0, 0],
        (0, [0, UNIT, -10000, -30000, 5000, -30000, 5000]),
        Some((1, [0, UNIT, -10000, 30000, 5000, 30000, 5000])),
    ),
    (
        [Line, Ball],
        [0, 0],
        (2, [0, UNIT, -10000, 0, -5000, 0, -5000]),
        None,
    ),
    (
        [Line, Bar],
        [0, 0],
        (0, [0, UNIT, -10000, -30000, -5000, -30000, -5000]),
        Some((1, [0, UNIT, -10000, 30000, -5000, 30000, -5000])),
    ),
    (
        [Line, Line],
        [0, 0],
        (0, [0, UNIT, 0, -30000, 0, -30000, 0]),
        Some((1, [0, UNIT, 0, 30000, 0, 30000, 0])),
    ),
];

/// Equal centres, and cores that cross.
pub(crate) const CORES_ACROSS_ONE_ANOTHER: [Row; 6] = [
    (
        [Ball, Mast],
        [0, 0],
        (0, [-UNIT, 0, -20000, 0, 0, 0, 0]),
        None,
    ),
    (
        [Ball, Cut],
        [0, 0],
        (0, [-UNIT, 0, -10000, -5000, 0, -5000, 0]),
        None,
    ),
    (
        [Bar, Mast],
        [0, 0],
        (2, [0, UNIT, -40000, 0, -10000, 0, -10000]),
        None,
    ),
    (
        [Bar, Cut],
        [0, 0],
        (2, [0, UNIT, -30000, 0, -5000, 0, -5000]),
        None,
    ),
    (
        [Line, Mast],
        [0, 0],
        (2, [0, UNIT, -30000, 0, -15000, 0, -15000]),
        Some((3, [0, -UNIT, -30100, 0, 15050, 0, 15050])),
    ),
    (
        [Line, Cut],
        [0, 0],
        (2, [0, UNIT, -20000, 0, -10000, 0, -10000]),
        None,
    ),
];

/// The first end of one core on the last end of the other.
pub(crate) const ENDS_THAT_MEET: [Row; 8] = [
    (
        [Ball, Post],
        [0, 0],
        (0, [-UNIT, 0, -20000, 0, 0, 0, 0]),
        None,
    ),
    (
        [Ball, Wall],
        [0, 0],
        (0, [-UNIT, 0, -10000, -5000, 0, -5000, 0]),
        None,
    ),
    (
        [Bar, Ball],
        [30000, 0],
        (1, [0, UNIT, -20000, 30000, 0, 0, 0]),
        None,
    ),
    (
        [Bar, Post],
        [30000, 0],
        (1, [-UNIT, 0, -20000, 30000, 0, 0, 0]),
        None,
    ),
    (
        [Bar, Wall],
        [30000, 0],
        (1, [-UNIT, 0, -10000, 25000, 0, -5000, 0]),
        None,
    ),
    (
        [Line, Ball],
        [30000, 0],
        (1, [0, UNIT, -10000, 30000, -5000, 0, -5000]),
        None,
    ),
    (
        [Line, Post],
        [30000, 0],
        (1, [-UNIT, 0, -10000, 35000, 0, 5000, 0]),
        None,
    ),
    (
        [Line, Wall],
        [30000, 0],
        (1, [-UNIT, 0, 0, 30000, 0, 0, 0]),
        None,
    ),
];

/// The first end of one core inside the other core.
pub(crate) const AN_END_ON_A_CORE: [Row; 9] = [
    (
        [Ball, Ball],
        [4000, 0],
        (0, [UNIT, 0, -16000, 2000, 0, -2000, 0]),
        None,
    ),
    (
        [Ball, Post],
        [4000, 0],
        (0, [UNIT, 0, -16000, 2000, 0, -2000, 0]),
        None,
    ),
    (
        [Ball, Wall],
        [4000, 0],
        (0, [UNIT, 0, -6000, 7000, 0, 3000, 0]),
        None,
    ),
    (
        [Bar, Ball],
        [4000, 0],
        (2, [0, UNIT, -20000, 4000, 0, 0, 0]),
        None,
    ),
    (
        [Bar, Post],
        [4000, 0],
        (2, [-UNIT, 0, -20000, 4000, 0, 0, 0]),
        None,
    ),
    (
        [Bar, Wall],
        [4000, 0],
        (2, [-UNIT, 0, -10000, -1000, 0, -5000, 0]),
        None,
    ),
    (
        [Line, Ball],
        [4000, 0],
        (2, [0, UNIT, -10000, 4000, -5000, 0, -5000]),
        None,
    ),
    (
        [Line, Post],
        [4000, 0],
        (2, [-UNIT, 0, -10000, 9000, 0, 5000, 0]),
        None,
    ),
    (
        [Line, Wall],
        [4000, 0],
        (2, [-UNIT, 0, 0, 4000, 0, 0, 0]),
        None,
    ),
];
