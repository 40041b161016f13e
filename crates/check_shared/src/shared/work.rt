//! What seats do.

use check_scenes::CIRCLES;
use world_core::{Handle, Vec2};

/// How many ticks a step has.
const TICKS: i64 = 4;

/// How often a seat pushes beside one that steps.
const PUSHES: u64 = 100;

/// How often the other one steps.
const STEPS: u64 = 40;

/// How many seats work in a round of stress.
const STRESSED: u64 = 16;

/// How many calls each makes in a round of stress.
const CALLS: u64 = 1_000;

/// How many readers look in a round of stress.
const READERS: usize = 32;

/// How many workers solve the steps of a seat that has any.
const WORKERS: usize = 3;

/// The circle that is pushed beside steps.
const PUSHED: Handle = Handle {
    slot: 7,
    generation: 1,
};

const RIGHT: Vec2 = Vec2 { x: 1, y: 0 };

/// What the seats of a world do.
#[derive(Clone, Copy)]
pub enum RoundWork {
    /// One pushes, and another one steps by three workers.
    Both,
    /// The one seat makes a step, which waits at the gate.
    Held,
    /// Each pushes, steps and looks by chance. Some step by three workers.
    Stress(u64),
}

impl RoundWork {
    /// How many seats work. One more publishes.
    pub fn seats(self) -> u64 {
        match self {
            RoundWork::Both => 2,
            RoundWork::Held => 1,
            RoundWork::Stress(_) => STRESSED,
        }
    }

    pub fn readers(self) -> usize {
        match self {
            RoundWork::Stress(_) => READERS,
            _ => 1,
        }
    }

    /// Whether the gate is shut at first.
    pub fn is_held(self) -> bool {
        match self {
            RoundWork::Held => true,
            _ => false,
        }
    }
}

/// One call of a seat, or a look.
#[derive(Clone, Copy)]
pub enum Turn {
    Push(Handle, Vec2),
    Step(i64),
    Look,
}

/// What one seat does.
#[derive(Clone, Copy)]
pub struct Task {
    work: RoundWork,
    seat: u64,
    /// How often it takes its turn.
    pub turns: u64,
    /// How many workers solve its steps.
    pub workers: usize,
}

/// A number that looks random, the same for the same round, seat and turn.
fn chance(round: u64, seat: u64, turn: u64) -> u64 {
    let mixed = round
        .wrapping_mul(1_000_003)
        .wrapping_add(seat)
        .wrapping_mul(1_000_003)
        .wrapping_add(turn);
    mixed.wrapping_mul(6_364_136_223_846_793_005) >> 33
}

/// A number below seven, less three.
fn around(chance: u64) -> i64 {
    i64::try_from(chance % 7).unwrap_or(0).saturating_sub(3)
}

/// One of the three hundred circles.
fn circle(chance: u64) -> Handle {
    let slot = u32::try_from(chance % CIRCLES)
        .unwrap_or(0)
        .saturating_add(1);
    Handle {
        slot,
        generation: 1,
    }
}

fn push_by_chance(chance: u64) -> Turn {
    let by = Vec2 {
        x: around(chance / 512).saturating_mul(60),
        y: around(chance / 4_096).saturating_mul(60),
    };
    Turn::Push(circle(chance / 16), by)
}

/// Of sixteen turns two are steps and one is a look.
fn turn_by_chance(chance: u64) -> Turn {
    match chance % 16 {
        0..2 => Turn::Step(TICKS),
        2 => Turn::Look,
        _ => push_by_chance(chance),
    }
}

impl Task {
    /// What the seat of this number does.
    pub fn of(work: RoundWork, seat: u64) -> Task {
        let (turns, workers) = match (work, seat) {
            (RoundWork::Both, 0) => (PUSHES, 1),
            (RoundWork::Both, _) => (STEPS, WORKERS),
            (RoundWork::Held, _) => (1, WORKERS),
            (RoundWork::Stress(_), 0..4) => (CALLS, WORKERS),
            (RoundWork::Stress(_), _) => (CALLS, 1),
        };
        Task {
            work,
            seat,
            turns,
            workers,
        }
    }

    pub fn turn(self, number: u64) -> Turn {
        match (self.work, self.seat) {
            (RoundWork::Stress(round), seat) => turn_by_chance(chance(round, seat, number)),
            (RoundWork::Both, 0) => Turn::Push(PUSHED, RIGHT),
            _ => Turn::Step(TICKS),
        }
    }
}
