//! Placements of two shapes whose cores are apart, with their points of contact.

use crate::shapes_placements::Core::{Ball, Bar, Beam, Floor, Line, Slope, Wall};
use crate::shapes_placements::Row;
use fixed_geom::UNIT;

/// Parallel cores.
pub(crate) const CORES_SIDE_BY_SIDE: [Row; 9] = [
    (
        [Ball, Ball],
        [5000, 15000],
        (0, [339555317, 1018665952, -4189, 2500, 7500, -2500, -7500]),
        None,
    ),
    (
        [Ball, Bar],
        [5000, 15000],
        (0, [0, UNIT, -5000, 0, 7500, -5000, -7500]),
        None,
    ),
    (
        [Ball, Line],
        [5000, 15000],
        (0, [0, UNIT, 5000, 0, 12500, -5000, -2500]),
        None,
    ),
    (
        [Bar, Ball],
        [5000, 15000],
        (2, [0, UNIT, -5000, 5000, 7500, 0, -7500]),
        None,
    ),
    (
        [Bar, Bar],
        [5000, 15000],
        (1, [0, UNIT, -5000, 30000, 7500, 25000, -7500]),
        Some((2, [0, UNIT, -5000, -25000, 7500, -30000, -7500])),
    ),
    (
        [Bar, Line],
        [5000, 15000],
        (1, [0, UNIT, 5000, 30000, 12500, 25000, -2500]),
        None,
    ),
    (
        [Line, Ball],
        [5000, 15000],
        (2, [0, UNIT, 5000, 5000, 2500, 0, -12500]),
        None,
    ),
    (
        [Line, Bar],
        [5000, 15000],
        (1, [0, UNIT, 5000, 30000, 2500, 25000, -12500]),
        None,
    ),
    (
        [Line, Line],
        [5000, 15000],
        (1, [0, UNIT, 15000, 30000, 7500, 25000, -7500]),
        None,
    ),
];

/// Both ends of the shorter core at one distance.
pub(crate) const ENDS_AT_ONE_DISTANCE: [Row; 9] = [
    (
        [Ball, Ball],
        [0, 12000],
        (0, [0, UNIT, -8000, 0, 6000, 0, -6000]),
        None,
    ),
    (
        [Ball, Bar],
        [0, 12000],
        (0, [0, UNIT, -8000, 0, 6000, 0, -6000]),
        None,
    ),
    (
        [Ball, Line],
        [0, 12000],
        (0, [0, UNIT, 2000, 0, 11000, 0, -1000]),
        None,
    ),
    (
        [Beam, Ball],
        [0, 12000],
        (2, [0, UNIT, -8000, 0, 6000, 0, -6000]),
        None,
    ),
    (
        [Beam, Bar],
        [0, 12000],
        (2, [0, UNIT, -8000, -30000, 6000, -30000, -6000]),
        Some((3, [0, UNIT, -8000, 30000, 6000, 30000, -6000])),
    ),
    (
        [Beam, Line],
        [0, 12000],
        (2, [0, UNIT, 2000, -30000, 11000, -30000, -1000]),
        None,
    ),
    (
        [Floor, Ball],
        [0, 12000],
        (2, [0, UNIT, 2000, 0, 1000, 0, -11000]),
        None,
    ),
    (
        [Floor, Bar],
        [0, 12000],
        (2, [0, UNIT, 2000, -30000, 1000, -30000, -11000]),
        None,
    ),
    (
        [Floor, Line],
        [0, 12000],
        (2, [0, UNIT, 12000, -30000, 6000, -30000, -6000]),
        None,
    ),
];

/// Ways of up to 2^30 u, the last whose products 64 bits hold, and of one more.
pub(crate) const CORES_NEAR_AND_FAR: [Row; 4] = [
    (
        [Ball, Slope],
        [521777216, -1066741823],
        (
            0,
            [
                462148594, -969195637, 1186542392, 255353815, -535515646, -266423401, 531226177,
            ],
        ),
        None,
    ),
    (
        [Ball, Slope],
        [521777216, -1066741824],
        (
            0,
            [
                462148594, -969195637, 1186542393, 255353815, -535515646, -266423401, 531226178,
            ],
        ),
        None,
    ),
    (
        [Line, Wall],
        [1073711824, -15000],
        (1, [UNIT, 0, 1073681824, 536870912, 0, -536840912, 15000]),
        None,
    ),
    (
        [Line, Wall],
        [1073711825, -15000],
        (1, [UNIT, 0, 1073681825, 536870912, 0, -536840913, 15000]),
        None,
    ),
];
