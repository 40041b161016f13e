//! The movers dealt out to parts: strips along the longer side, cut where few bodies touch.
//!
//! Any deal will do, so nothing is promised here.

use crate::seeing::{is_mover, part_at};
use crate::stages::Stage;
use colour_solver::Slots;
use fixed_geom::Refusal;
use graph_colours::COLOURS;
use momenta::BodyState;
use std::alloc::Global;

/// After so many steps the strips are cut anew.
const LONGEST_USE: u32 = 32;

/// A mover along the longer side, and what it costs.
#[derive(Clone, Copy)]
struct Place {
    at: i64,
    weight: u32,
}

/// How many rows there are in all, how many of them wait for a body of another part, and how many have no colour.
#[derive(Clone, Copy)]
pub(crate) struct Counts {
    pub(crate) all: usize,
    pub(crate) waiting: usize,
    pub(crate) left: usize,
}

/// The strips of the steps before, and the lists that they are cut with.
#[derive(Drop)]
pub(crate) struct Deal {
    /// The part of each slot; 0 for what isn't a mover.
    pub(crate) home: Vec<u32>,
    /// The movers that were dealt out.
    dealt: Vec<u32>,
    /// Where one strip ends and the next begins (u).
    cuts: Vec<i64>,
    along_x: bool,
    /// For how many steps the strips have been used.
    used: u32,
    weights: Vec<u32>,
    places: Vec<Place>,
}

/// Where a body is along one side (u).
fn place_of(states: &[BodyState], slot: u32, along_x: bool) -> i64 {
    match states.get(slot as usize) {
        None => 0,
        Some(state) => {
            if along_x {
                state.motion.x.x
            } else {
                state.motion.x.y
            }
        }
    }
}

/// How far the movers reach along one side (u).
fn reach(states: &[BodyState], awake: &[u32], along_x: bool) -> i64 {
    let mut low = i64::MAX;
    let mut high = i64::MIN;
    for index in 0..awake.len() {
        let at = place_of(states, awake[index], along_x);
        low = low.min(at);
        high = high.max(at);
    }
    high.saturating_sub(low)
}

/// Adds to the weight of a slot.
fn add_weight(weights: &mut Vec<u32>, slot: u32, more: u32) {
    if let Some(weight) = weights.get_mut(slot as usize) {
        *weight = weight.saturating_add(more);
    }
}

/// Adds what rows cost to the movers that they touch.
fn weigh_rows(weights: &mut Vec<u32>, rows: &[Slots], states: &[BodyState]) {
    for index in 0..rows.len() {
        let slots = rows[index];
        let both = is_mover(states, slots.a as usize) && is_mover(states, slots.b as usize);
        let each = if both { 1 } else { 2 };
        add_weight(weights, slots.a, each);
        add_weight(weights, slots.b, each);
    }
}

/// The same of all stages.
fn weigh_all(weights: &mut Vec<u32>, stages: &[Stage], states: &[BodyState]) {
    for index in 0..stages.len() {
        weigh_rows(weights, &stages[index].slots, states);
    }
}

/// How many rows have movers that are at home in two parts.
fn count_waiting(rows: &[Slots], states: &[BodyState], home: &[u32]) -> usize {
    let mut waiting: usize = 0;
    for index in 0..rows.len() {
        let slots = rows[index];
        if part_at(home, slots.a as usize) != part_at(home, slots.b as usize)
            && is_mover(states, slots.a as usize)
            && is_mover(states, slots.b as usize)
        {
            waiting = waiting.saturating_add(1);
        }
    }
    waiting
}

/// How many rows of a step wait by this deal: those that have no colour, and of the others those between two parts.
fn count_all(stages: &[Stage], states: &[BodyState], home: &[u32]) -> Counts {
    let mut counts = Counts {
        all: 0,
        waiting: 0,
        left: 0,
    };
    for index in 0..stages.len() {
        let rows = stages[index].slots.as_slice();
        counts.all = counts.all.saturating_add(rows.len());
        counts.waiting = counts
            .waiting
            .saturating_add(count_waiting(rows, states, home));
        counts.left = if index < COLOURS { 0 } else { rows.len() };
    }
    counts.waiting = counts.waiting.saturating_add(counts.left);
    counts
}

/// The strip of a place: behind so many cuts.
fn strip(cuts: &[i64], at: i64) -> u32 {
    let mut part: u32 = 0;
    for index in 0..cuts.len() {
        if cuts[index] <= at {
            part = part.saturating_add(1);
        }
    }
    part
}

/// The sum of all weights.
fn whole_weight(places: &[Place]) -> u64 {
    let mut sum: u64 = 0;
    for index in 0..places.len() {
        sum = sum.saturating_add(places[index].weight as u64);
    }
    sum
}

/// A cut that is looked for: the widest gap so far.
#[derive(Clone, Copy)]
struct Search {
    widest: i64,
    best: i64,
}

/// The gap behind a place, if it is wider.
fn widened(search: Search, places: &[Place], index: usize) -> Search {
    let (Some(place), Some(next)) = (places.get(index), places.get(index.saturating_add(1))) else {
        return search;
    };
    let at = place.at;
    let gap = next.at.saturating_sub(at);
    if gap > search.widest {
        Search {
            widest: gap,
            best: at.saturating_add(gap / 2).saturating_add(1),
        }
    } else {
        search
    }
}

/// Cuts sorted places into strips of nearly the same weight, each cut in the widest gap near where it should be.
fn cut_places(cuts: &mut Vec<i64>, places: &[Place], parts: usize) {
    let nothing = Search {
        widest: -1,
        best: i64::MAX,
    };
    let whole = whole_weight(places);
    let parts = parts as u64;
    let near = whole / parts.saturating_mul(16).max(1);
    let mut search = nothing;
    let mut sum: u64 = 0;
    for index in 0..places.len() {
        let next = (cuts.len() as u64).saturating_add(1);
        if next >= parts {
            break;
        }
        sum = sum.saturating_add(places[index].weight as u64);
        let wanted = whole.saturating_mul(next) / parts.max(1);
        if sum.saturating_add(near) >= wanted {
            search = widened(search, places, index);
            if sum >= wanted.saturating_add(near) {
                let _ = cuts.push(search.best);
                search = nothing;
            }
        }
    }
}

impl Deal {
    pub(crate) fn new(alloc: Global) -> Deal {
        Deal {
            home: Vec::new(alloc),
            dealt: Vec::new(alloc),
            cuts: Vec::new(alloc),
            along_x: true,
            used: LONGEST_USE,
            weights: Vec::new(alloc),
            places: Vec::new(alloc),
        }
    }

    /// Whether the deal of the step before still is one of these bodies, in so many parts, and not too old.
    fn holds(&self, states: &[BodyState], awake: &[u32], parts: usize) -> bool {
        self.used < LONGEST_USE
            && self.cuts.len().saturating_add(1) == parts
            && self.home.len() == states.len()
            && self.dealt.as_slice() == awake
    }

    /// Cuts the strips.
    fn cut(
        &mut self,
        stages: &[Stage],
        states: &[BodyState],
        awake: &[u32],
        parts: usize,
    ) -> Result<(), Refusal> {
        self.used = LONGEST_USE;
        self.weights.clear();
        self.weights.resize(states.len(), 1)?;
        weigh_all(&mut self.weights, stages, states);
        self.along_x = reach(states, awake, true) >= reach(states, awake, false);
        self.places.clear();
        self.places.reserve(awake.len())?;
        for index in 0..awake.len() {
            let slot = awake[index];
            self.places.push(Place {
                at: place_of(states, slot, self.along_x),
                weight: part_at(&self.weights, slot as usize),
            })?;
        }
        self.places.sort_unstable_by_key(|place| place.at);
        self.cuts.clear();
        self.cuts.reserve(parts)?;
        cut_places(&mut self.cuts, &self.places, parts);
        let last = parts.saturating_sub(1).max(self.cuts.len());
        self.cuts.resize(last, i64::MAX)?;
        self.used = 0;
        Ok(())
    }

    /// Gives each mover the part of its strip.
    fn give_homes(&mut self, states: &[BodyState], awake: &[u32]) -> Result<(), Refusal> {
        self.home.clear();
        self.home.resize(states.len(), 0)?;
        for index in 0..awake.len() {
            let slot = awake[index];
            let part = strip(&self.cuts, place_of(states, slot, self.along_x));
            if let Some(home) = self.home.get_mut(slot as usize) {
                *home = part;
            }
        }
        self.dealt.clear();
        self.dealt.extend_from_slice(awake)?;
        Ok(())
    }

    /// Deals the movers out to so many parts, by new strips or those of the step before.
    fn deal(
        &mut self,
        stages: &[Stage],
        states: &[BodyState],
        awake: &[u32],
        parts: usize,
        anew: bool,
    ) -> Result<Counts, Refusal> {
        if anew || self.used >= LONGEST_USE || self.cuts.len().saturating_add(1) != parts {
            self.cut(stages, states, awake, parts)?;
            self.give_homes(states, awake)?;
        } else if !self.holds(states, awake, parts) {
            self.give_homes(states, awake)?;
        }
        self.used = self.used.saturating_add(1);
        Ok(count_all(stages, states, &self.home))
    }

    /// Sees to it that each mover has a home among so many parts. Answers what waits then, or nothing where memory is
    /// wanting.
    pub(crate) fn settle(
        &mut self,
        stages: &[Stage],
        states: &[BodyState],
        awake: &[u32],
        parts: usize,
    ) -> Option<Counts> {
        let Ok(counts) = self.deal(stages, states, awake, parts, false) else {
            return None;
        };
        if self.used <= 1 || counts.waiting <= counts.all / 10 {
            return Some(counts);
        }
        self.deal(stages, states, awake, parts, true).ok()
    }
}
