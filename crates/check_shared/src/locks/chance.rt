//! What a seat asks for, by chance.

use crate::locks::claims::NONE;
use crate::scenes::{BODIES, LIFT, METRE, mover};
use check_scenes::FIRST;
use std::alloc::Global;
use world_core::{Command, Course, Handle, JointDef, Pose, Refusal, Reply, Rot, Vec2};

/// A row of numbers that look random, the same for the same start.
#[derive(Drop)]
struct Dice {
    state: u64,
}

impl Dice {
    /// A number below `count`.
    fn roll(&mut self, count: u32) -> u32 {
        self.state = self
            .state
            .wrapping_mul(6_364_136_223_846_793_005)
            .wrapping_add(1_442_695_040_888_963_407);
        let high = u32::try_from(self.state >> 33).unwrap_or(0);
        high.checked_rem(count).unwrap_or(0)
    }

    /// A number of so many units to either side of 0.
    fn around(&mut self, count: u32, unit: i64) -> i64 {
        let up = i64::from(self.roll(count));
        let down = i64::from(self.roll(count));
        (up - down).saturating_mul(unit)
    }

    fn vector(&mut self, count: u32, unit: i64) -> Vec2 {
        Vec2 {
            x: self.around(count, unit),
            y: self.around(count, unit),
        }
    }

    /// A place above the floor.
    fn place(&mut self) -> Vec2 {
        Vec2 {
            x: self.around(12, METRE),
            y: i64::from(self.roll(16)).saturating_mul(METRE),
        }
    }
}

/// What a seat has in hand: three bodies that it made, the oldest last, and a joint.
#[derive(Drop)]
pub struct Hand {
    dice: Dice,
    bodies: [Handle; 3],
    joint: Handle,
}

impl Hand {
    /// A hand that has nothing yet.
    pub fn new(seed: u64) -> Hand {
        Hand {
            dice: Dice { state: seed },
            bodies: [NONE; 3],
            joint: NONE,
        }
    }

    /// A body that the seat made, or one of the heap, which may be gone.
    fn any(&mut self) -> Handle {
        match self.dice.roll(5) {
            0 => self.bodies[0],
            1 => self.bodies[1],
            _ => Handle {
                slot: self.dice.roll(BODIES),
                generation: 1,
            },
        }
    }

    /// Takes the oldest body away, or makes one where there is none.
    fn renew(&mut self, alloc: Global) -> Result<Command, Refusal> {
        if self.bodies[2] != NONE {
            let oldest = self.bodies[2];
            self.bodies[2] = NONE;
            return Ok(Command::DestroyBody(oldest));
        }
        mover(alloc, self.dice.place())
    }

    fn join(&mut self) -> Command {
        if self.joint != NONE {
            let joint = self.joint;
            self.joint = NONE;
            return Command::DestroyJoint(joint);
        }
        Command::CreateJoint(JointDef {
            a: self.any(),
            b: self.any(),
            from: self.dice.vector(16, 1 << 14),
            to: Vec2 { x: 0, y: 0 },
            length: 2 * METRE,
            collide: true,
        })
    }

    fn put(&mut self) -> Command {
        let x = self.dice.place();
        let rot = Rot { c: 0, s: 1 << 30 };
        Command::SetPose(self.bodies[0], Pose { x, rot })
    }

    /// A command that is seldom asked for.
    fn seldom(&mut self) -> Command {
        match self.dice.roll(8) {
            0 => self.put(),
            1 => Command::Disable(self.bodies[1]),
            2 => Command::Enable(self.bodies[1]),
            3 => Command::Wake(self.any()),
            4 => Command::Sleep(self.any()),
            5 => Command::SetGravity(Vec2 {
                x: self.dice.around(20, 1),
                y: -157,
            }),
            6 => Command::SetVelocity(
                LIFT,
                Course {
                    velocity: self.dice.vector(20, 100),
                    spin: self.dice.around(100, 1_000),
                },
            ),
            _ => Command::Push(FIRST, Vec2 { x: 1, y: 1 }),
        }
    }

    /// The next command.
    pub fn command(&mut self, alloc: Global) -> Result<Command, Refusal> {
        match self.dice.roll(32) {
            0 => Ok(Command::Step(i64::from(self.dice.roll(5)))),
            1 => Ok(self.join()),
            2 => Ok(self.join()),
            3 => Ok(self.seldom()),
            4 => Ok(self.seldom()),
            5 => Ok(self.seldom()),
            6 => self.renew(alloc),
            7 => self.renew(alloc),
            8 => self.renew(alloc),
            9 => Ok(Command::PushAt(
                self.any(),
                self.dice.vector(40, 1_000),
                self.dice.vector(16, 1 << 14),
            )),
            _ => Ok(Command::Push(self.any(), self.dice.vector(60, 1_000))),
        }
    }

    /// Takes what was made into the hand.
    pub fn take(&mut self, reply: Reply) {
        match reply {
            Reply::Body(body) => self.bodies = [body, self.bodies[0], self.bodies[1]],
            Reply::Joint(joint) => self.joint = joint,
            _ => {}
        }
    }

    /// Whether the seat looks at the world before its next call: at a frame, or at events.
    pub fn looks(&mut self) -> Option<bool> {
        match self.dice.roll(64) {
            0 => Some(true),
            1 => Some(false),
            _ => None,
        }
    }
}
