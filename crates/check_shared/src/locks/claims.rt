//! What seats were told of their calls, and whether the journal has it so.

use std::alloc::Global;
use world_core::{Command, Handle, Reply, Vec2};
use world_lock::{JournalEntry, Receipt};

/// Names no body and no joint.
pub const NONE: Handle = Handle {
    slot: u32::MAX,
    generation: 0,
};

/// What a command asks for: its kind, what it names, and its numbers. Of a body that is made it has the place, and all
/// else of those bodies is the same.
#[derive(Clone, Copy, PartialEq, Eq)]
pub struct Gist {
    kind: u8,
    named: [Handle; 2],
    numbers: [i64; 4],
}

fn of_one(kind: u8, named: Handle) -> Gist {
    of_vectors(kind, named, Vec2 { x: 0, y: 0 }, Vec2 { x: 0, y: 0 })
}

fn of_vectors(kind: u8, named: Handle, first: Vec2, second: Vec2) -> Gist {
    Gist {
        kind,
        named: [named, NONE],
        numbers: [first.x, first.y, second.x, second.y],
    }
}

impl Gist {
    pub fn of(command: &Command) -> Gist {
        let still = Vec2 { x: 0, y: 0 };
        match command {
            Command::CreateBody(def) => of_vectors(0, NONE, def.x, still),
            Command::DestroyBody(body) => of_one(1, *body),
            Command::CreateJoint(def) => Gist {
                kind: 2,
                named: [def.a, def.b],
                numbers: [def.from.x, def.from.y, def.length, 0],
            },
            Command::DestroyJoint(joint) => of_one(3, *joint),
            Command::Push(body, by) => of_vectors(4, *body, *by, still),
            Command::PushAt(body, by, offset) => of_vectors(5, *body, *by, *offset),
            Command::SetPose(body, pose) => {
                let facing = Vec2 {
                    x: pose.rot.c,
                    y: pose.rot.s,
                };
                of_vectors(6, *body, pose.x, facing)
            }
            Command::SetVelocity(body, course) => {
                let spin = Vec2 {
                    x: course.spin,
                    y: 0,
                };
                of_vectors(7, *body, course.velocity, spin)
            }
            Command::SetGravity(by) => of_vectors(8, NONE, *by, still),
            Command::Disable(body) => of_one(9, *body),
            Command::Enable(body) => of_one(10, *body),
            Command::Wake(body) => of_one(11, *body),
            Command::Sleep(body) => of_one(12, *body),
            Command::Step(ticks) => of_vectors(13, NONE, Vec2 { x: *ticks, y: 0 }, still),
        }
    }
}

/// A call that was accepted, as its seat knows it.
#[derive(Clone, Copy)]
pub struct Claim {
    pub gist: Gist,
    pub reply: Reply,
    pub receipt: Receipt,
}

impl Claim {
    /// Whether this is the entry of the call.
    fn is_entry(&self, entry: &JournalEntry) -> bool {
        entry.seat == self.receipt.seat
            && entry.call.number == self.receipt.number
            && entry.call.reply == self.reply
            && Gist::of(&entry.call.command) == self.gist
    }

    /// Whether the journal, none of which was settled, has the entry in its place.
    fn stands_in(&self, journal: &[JournalEntry]) -> bool {
        match journal.get(self.receipt.place as usize) {
            Some(entry) => self.is_entry(entry),
            None => false,
        }
    }
}

/// What a seat was told while it worked.
#[derive(Drop)]
pub struct Account {
    /// Whether it was always told what it should be.
    pub honest: bool,
    /// Its accepted calls.
    claims: Vec<Claim>,
}

impl Account {
    pub fn new(alloc: Global) -> Account {
        Account {
            honest: true,
            claims: Vec::new(alloc),
        }
    }

    /// Notes that something wasn't as it should be.
    pub fn doubt(&mut self) {
        self.honest = false;
    }

    pub fn add(&mut self, claim: Claim) {
        if self.claims.push(claim).is_err() {
            self.doubt();
        }
    }
}

/// Whether each seat was told what it should be.
pub fn are_honest(accounts: &[Account]) -> bool {
    accounts.iter().all(|account| account.honest)
}

fn stand_all(claims: &[Claim], journal: &[JournalEntry]) -> bool {
    claims.iter().all(|claim| claim.stands_in(journal))
}

/// Whether the journal has each seat's calls, each in the place of its receipt, and no others.
pub fn are_entries(accounts: &[Account], journal: &[JournalEntry]) -> bool {
    let mut count: usize = 0;
    for account in accounts {
        if !stand_all(&account.claims, journal) {
            return false;
        }
        count = count.saturating_add(account.claims.len());
    }
    count == journal.len()
}
