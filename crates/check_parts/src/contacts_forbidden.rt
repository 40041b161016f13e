//! A pair of bodies that may not collide.

ghost use Rattle.std.specs.Option.{option_to_list};

use contacts::ForbiddenPairs;
use contacts_base::BodyPair;
use std::alloc::Global;
use std::mem;

/// One pair of bodies, or none.
#[derive(Drop)]
pub(crate) struct OnePair {
    pub pair: Option<BodyPair>,
}

/// No pair.
pub(crate) const NO_PAIR: OnePair = OnePair { pair: None };

impl ForbiddenPairs for OnePair {
    ghost pairs = { λ p. option_to_list p.pair };

    fn forbids(&self, a: u32, b: u32) -> bool {
        match self.pair {
            None => false,
            Some(pair) => pair.is_of(a, b),
        }
    }

    fn taken(&mut self, alloc: Global) -> OnePair {
        let _ = alloc;
        mem::replace(self, NO_PAIR)
    }
}
