//! A check under way. What it asks for is told as it comes, and nothing ends it early, so that each check is a list of
//! calls.

mod census;
mod events;
mod ledger;
mod lists;
mod queries;

use crate::whole_world::WholeWorld;
use crate::worlds::making::create_of;
use crate::worlds::readme::fall;
use crate::worlds::seen::{Line, Seen};
use check_scenes::{Answer, NO_GRAVITY};
use std::alloc::Global;
use world_core::{Command, Refusal, ShapeDef, Vec2};

/// The world of a check, and the lines that were told and not yet printed.
#[derive(Drop)]
pub struct Check<W: WholeWorld> {
    alloc: Global,
    world: W,
    /// The world that was left for its copy.
    left: Option<W>,
    lines: Vec<Line>,
    /// Memory was wanting for something that had to be seen.
    is_cut: bool,
}

impl<W: WholeWorld> Check<W> {
    pub fn new(alloc: Global) -> Result<Check<W>, Refusal> {
        match W::empty(alloc, NO_GRAVITY) {
            Ok(world) => Ok(Check {
                alloc,
                world,
                left: None,
                lines: Vec::new(alloc),
                is_cut: false,
            }),
            Err(refusal) => Err(refusal),
        }
    }

    pub fn lines(&self) -> &[Line] {
        self.lines.as_slice()
    }

    /// Forgets the lines that were printed.
    pub fn forget_lines(&mut self) {
        self.lines.clear();
    }

    pub fn is_cut(&self) -> bool {
        self.is_cut
    }

    fn tell(&mut self, line: Line) {
        if self.lines.push(line).is_err() {
            self.is_cut = true;
        }
    }

    /// Tells a value.
    pub fn see(&mut self, seen: Seen) {
        self.tell(Line::Saw(seen));
    }

    pub fn alloc(&self) -> Global {
        self.alloc
    }

    /// A check of this name begins.
    pub fn name(&mut self, name: &'static str) {
        self.tell(Line::Name(name));
    }

    /// A check of this name begins, in an empty world.
    pub fn begin(&mut self, name: &'static str, gravity: Vec2) {
        self.name(name);
        self.restart(gravity);
    }

    /// Goes on in an empty world.
    pub fn restart(&mut self, gravity: Vec2) {
        match W::empty(self.alloc, gravity) {
            Ok(world) => self.world = world,
            Err(_) => self.is_cut = true,
        }
    }

    /// Tells why a line of a script can't be done.
    pub fn tell_unread(&mut self, refusal: Refusal) {
        self.name("a line that asks for nothing");
        self.see(Seen::Answer(Err(refusal)));
    }

    /// Applies a command, and tells what it answers. The command is given away, so that whoever asks for many has none
    /// of them to drop.
    pub fn ask(&mut self, command: Command) {
        let answer = self.world.apply(&command);
        self.see(Seen::Answer(answer));
    }

    /// Applies a command, and tells what it answers only where it is refused.
    pub fn apply(&mut self, command: Command) {
        let answer = self.world.apply(&command);
        self.expect(answer);
    }

    fn expect(&mut self, answer: Answer) {
        if answer.is_err() {
            self.see(Seen::Answer(answer));
        }
    }

    fn apply_made(&mut self, made: Result<Command, Refusal>) {
        match made {
            Ok(command) => self.apply(command),
            Err(_) => self.is_cut = true,
        }
    }

    /// Adds a body of one shape, a static one where the mass is 0.
    pub fn add(&mut self, mass: i64, x: Vec2, shape: ShapeDef) {
        let made = create_of(self.alloc, mass, x, shape);
        self.apply_made(made);
    }

    /// Replays commands, and tells what each answers.
    pub fn replay(&mut self, commands: &[Command]) {
        match self.world.replay(self.alloc, commands) {
            Ok(answers) => self.see_answers(answers.as_slice()),
            Err(_) => self.is_cut = true,
        }
    }

    fn see_answers(&mut self, answers: &[Answer]) {
        for answer in answers {
            self.see(Seen::Answer(*answer));
        }
    }

    /// Goes on in a copy of the world.
    pub fn go_on_in_copy(&mut self) {
        match self.world.copied() {
            Ok(copy) => self.left = Some(self.exchange(copy)),
            Err(_) => self.is_cut = true,
        }
    }

    /// Goes back to the world that was left for its copy, and tells whether the copy still has the world's entries.
    pub fn go_back(&mut self) {
        match self.left.take() {
            Some(world) => {
                let copy = self.exchange(world);
                self.compare_entries(&copy);
            }
            None => self.is_cut = true,
        }
    }

    fn exchange(&mut self, world: W) -> W {
        std::mem::replace(&mut self.world, world)
    }

    fn compare_entries(&mut self, copy: &W) {
        let are_same = copy.ledger().entries() == self.world.ledger().entries();
        self.see(Seen::Truth("the entries are those of the copy", are_same));
    }

    pub fn settle(&mut self) {
        self.world.settle();
    }

    /// Lets the circle of the README fall, and tells what is seen of it.
    pub fn see_fall(&mut self) {
        match fall(self.alloc, &mut self.world) {
            Ok(view) => self.see(Seen::Body(view)),
            Err(refusal) => self.see(Seen::Answer(Err(refusal))),
        }
    }
}
