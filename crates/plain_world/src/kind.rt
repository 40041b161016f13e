//! Kinds of bodies, and how a kinematic one is carried along.

ghost use Rattle.std.specs.Prelude.{◌≡◌, ◌≤◌, unsigned_abs, Some, IfSome, IsTrue};
ghost use Rattle.fixed_geom.specs.Vectors.{IsWithin};
ghost use Rattle.plain_world.specs.Kinds.{carried_by, course_of, halted, is_course, is_course_allowed, is_dynamic, is_kinematic, is_moving, is_static, IsCourse, IsCourseOf};

use fixed_geom::{MAX_SPIN, Vec2, is_within};
use momenta::MAX_SPEED;

/// The velocity of a kinematic body (u/tick, each component within ±2^20) and its spin (the tangent of the turn of a
/// tick times 2^30, within ±2^28).
#[derive(Clone, Copy, Debug, PartialEq, Eq)]
pub struct Course {
    pub velocity: Vec2,
    pub spin: i64,
}

/// A body that stands still.
pub const NO_COURSE: Course = Course {
    velocity: Vec2 { x: 0, y: 0 },
    spin: 0,
};

impl Course {
    /// Whether a body may be given this course: velocity and spin are within their limits.
    pub fn is_allowed(self) -> bool
        ensures value { result ≡ is_course self }
        ensures course { IsTrue result → IsCourse self }
    {
        is_within(self.velocity, MAX_SPEED.unsigned_abs())
            && self.spin.unsigned_abs() <= MAX_SPIN.unsigned_abs()
    }

    /// Whether a body with this course moves: the velocity or the spin isn't 0.
    pub fn is_moving(self) -> bool
        ensures { result ≡ is_moving self }
    {
        self.velocity.x != 0 || self.velocity.y != 0 || self.spin != 0
    }
}

/// What moves a body.
#[derive(Clone, Copy, Debug, PartialEq, Eq)]
pub enum Kind {
    /// It stands, and nothing moves it.
    Static,
    /// It is carried along with this velocity and spin, and no impulse changes them.
    Kinematic(Course),
    /// It has a mass, and impulses move it.
    Dynamic,
}

impl Kind {
    pub fn is_static(self) -> bool
        ensures { result ≡ is_static self }
    {
        match self {
            Kind::Static => true,
            Kind::Kinematic(_) => false,
            Kind::Dynamic => false,
        }
    }

    pub fn is_dynamic(self) -> bool
        ensures { result ≡ is_dynamic self }
    {
        match self {
            Kind::Static => false,
            Kind::Kinematic(_) => false,
            Kind::Dynamic => true,
        }
    }

    pub fn is_kinematic(self) -> bool
        ensures { result ≡ is_kinematic self }
    {
        match self {
            Kind::Static => false,
            Kind::Kinematic(_) => true,
            Kind::Dynamic => false,
        }
    }

    /// The velocity and the spin of a kinematic body.
    pub fn course(self) -> Option<Course>
        ensures { result ≡ course_of self }
    {
        match self {
            Kind::Static => None,
            Kind::Kinematic(course) => Some(course),
            Kind::Dynamic => None,
        }
    }

    /// With which velocity and spin a body that no impulse moves is carried along: one that isn't kinematic stands
    /// still.
    pub fn carried_by(self) -> Course
        ensures { result ≡ carried_by self }
    {
        match self {
            Kind::Static => NO_COURSE,
            Kind::Kinematic(course) => course,
            Kind::Dynamic => NO_COURSE,
        }
    }

    /// The kind of a body that comes to a halt: a kinematic one has no velocity and no spin any more.
    pub(crate) fn halted(self) -> Kind
        ensures { result ≡ halted self }
    {
        match self {
            Kind::Static => Kind::Static,
            Kind::Kinematic(_) => Kind::Kinematic(NO_COURSE),
            Kind::Dynamic => Kind::Dynamic,
        }
    }

    /// Whether the course is within its limits, if it has one.
    pub(crate) fn is_course_allowed(self) -> bool
        ensures value { result ≡ is_course_allowed self }
        ensures course { IsTrue result → IsCourseOf self }
    {
        match self {
            Kind::Static => true,
            Kind::Kinematic(course) => course.is_allowed(),
            Kind::Dynamic => true,
        }
    }
}
