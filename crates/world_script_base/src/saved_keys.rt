//! The keys of a saved world: of each of its objects the keys, with what has to stand under each.
//!
//! A look at a text's tokens goes by them (`saved_scan`), and so does the search for the value that is to blame
//! (`saved_paths`), which tries them in this order.

/// What the value of a key has to be.
#[derive(Clone, Copy)]
pub(crate) enum Kind {
    Number,
    NumberOrNull,
    Truth,
    Text,
    /// A list of two numbers.
    Pair,
    /// A list of two such lists.
    Pairs,
    /// A list of two texts.
    Texts,
    /// An object with these keys.
    Object(&'static [Key]),
    /// A list of such objects.
    Objects(&'static [Key]),
}

/// A key, what its value has to be, whether each object of the form has it, and texts of JSON that would do as its
/// value: none where no search tries the key, two or three where bodies of other kinds want other values.
pub(crate) type Key = (&'static str, Kind, bool, &'static [&'static str]);

const ALL: bool = true;

const SOME: bool = false;

pub(crate) const WORLD: &[Key] = &[
    ("bodies", Kind::Objects(BODY_SLOT), ALL, &[]),
    ("call", Kind::Number, ALL, &[]),
    ("contacts", Kind::Objects(CONTACT), ALL, &[]),
    ("gravity", Kind::Pair, ALL, &[]),
    ("joints", Kind::Objects(JOINT_SLOT), ALL, &[]),
    ("ledger", Kind::Object(LEDGER), ALL, &[]),
    ("step", Kind::Number, ALL, &[]),
    ("version", Kind::Number, ALL, &[]),
];

/// Of a slot of bodies, free or not.
pub(crate) const BODY_SLOT: &[Key] = &[
    ("body", Kind::Object(BODY), SOME, &[]),
    ("generation", Kind::Number, ALL, &["1"]),
];

/// Kinematic bodies alone have a spin and a velocity.
pub(crate) const BODY: &[Key] = &[
    ("asleep", Kind::Truth, ALL, &["false"]),
    ("at", Kind::Pair, ALL, &["[0,0]"]),
    ("enabled", Kind::Truth, ALL, &["true"]),
    ("facing", Kind::Pair, ALL, &["[1073741824,0]"]),
    ("inertia", Kind::Number, ALL, &["0"]),
    ("island", Kind::NumberOrNull, ALL, &["null", "0"]),
    ("l", Kind::Text, ALL, &["\"0\""]),
    ("loose", Kind::Truth, ALL, &["false"]),
    ("mass", Kind::Number, ALL, &["1", "0"]),
    ("p", Kind::Pair, ALL, &["[0,0]"]),
    ("shapes", Kind::Objects(SHAPE), ALL, &[]),
    ("spin", Kind::Number, SOME, &["0"]),
    ("timer", Kind::Number, ALL, &["0"]),
    ("velocity", Kind::Pair, SOME, &["[0,0]"]),
    (
        "kind",
        Kind::Text,
        ALL,
        &["\"dynamic\"", "\"static\"", "\"kinematic\""],
    ),
];

/// The list of all shapes of a body, which is tried behind each of them.
pub(crate) const SHAPES: &[Key] = &[(
    "shapes",
    Kind::Objects(SHAPE),
    ALL,
    &[
        "[{\"category\":1,\"circle\":[0,0],\"fat\":[[-137438953472,-137438953472],[137438953472,137438953472]],\"friction\":0,\"group\":0,\"mask\":1,\"radius\":65536,\"restitution\":0}]",
    ],
)];

/// Its form says which of the keys of its geometry a shape has. The fat box is the largest that there may be.
pub(crate) const SHAPE: &[Key] = &[
    ("capsule", Kind::Pairs, SOME, &["[[0,0],[65536,0]]"]),
    ("category", Kind::Number, ALL, &["1"]),
    ("circle", Kind::Pair, SOME, &["[0,0]"]),
    (
        "fat",
        Kind::Pairs,
        ALL,
        &["[[-137438953472,-137438953472],[137438953472,137438953472]]"],
    ),
    ("friction", Kind::Number, ALL, &["0"]),
    ("group", Kind::Number, ALL, &["0"]),
    ("mask", Kind::Number, ALL, &["1"]),
    ("radius", Kind::Number, SOME, &["65536"]),
    ("restitution", Kind::Number, ALL, &["0"]),
    ("segment", Kind::Pairs, SOME, &["[[0,0],[65536,0]]"]),
];

/// Of a slot of joints, free or not.
pub(crate) const JOINT_SLOT: &[Key] = &[
    ("generation", Kind::Number, ALL, &["1"]),
    ("joint", Kind::Object(JOINT), SOME, &[]),
];

pub(crate) const JOINT: &[Key] = &[
    ("a", Kind::Text, ALL, &["\"0.1\""]),
    ("b", Kind::Text, ALL, &["\"1.1\""]),
    ("collide", Kind::Truth, ALL, &["false"]),
    ("colour", Kind::NumberOrNull, ALL, &["null"]),
    ("from", Kind::Pair, ALL, &["[0,0]"]),
    ("impulse", Kind::Number, ALL, &["0"]),
    ("length", Kind::Number, ALL, &["65536"]),
    ("to", Kind::Pair, ALL, &["[0,0]"]),
];

pub(crate) const CONTACT: &[Key] = &[
    ("a", Kind::Pair, ALL, &["[0,0]"]),
    ("b", Kind::Pair, ALL, &["[1,0]"]),
    ("colour", Kind::NumberOrNull, ALL, &["null"]),
    ("touching", Kind::Truth, ALL, &["false", "true"]),
    ("points", Kind::Objects(POINT), ALL, &["[]"]),
];

pub(crate) const POINT: &[Key] = &[
    ("candidate", Kind::Number, ALL, &["0"]),
    ("normal", Kind::Pair, ALL, &["[0,1073741824]"]),
    ("push", Kind::Number, ALL, &["0"]),
    ("ra", Kind::Pair, ALL, &["[0,0]"]),
    ("rb", Kind::Pair, ALL, &["[0,0]"]),
    ("sep", Kind::Number, ALL, &["0"]),
    ("slip", Kind::Number, ALL, &["0"]),
];

pub(crate) const LEDGER: &[Key] = &[
    ("clamp", Kind::Texts, ALL, &[]),
    ("command", Kind::Texts, ALL, &[]),
    ("departed", Kind::Texts, ALL, &[]),
    ("gravity", Kind::Texts, ALL, &[]),
    ("immovable", Kind::Texts, ALL, &[]),
    ("rest", Kind::Texts, ALL, &[]),
];
