//! What a walk along a ray asks, and what it answers.

ghost use Rattle.std.specs.Prelude.{◌≡◌, ℕ, Bool, Option, None, false};
ghost use Rattle.fixed_geom.specs.Boxes.{Contains};
ghost use Rattle.fixed_geom.specs.declared.boxes.Box2.{Box2 as Bounds};
ghost use Rattle.box_tree_base.specs.Rays.{nearer};

use fixed_geom::Box2;

/// Where a ray meets what a key stands for.
#[derive(Clone, Copy, Debug, PartialEq, Eq)]
pub struct Hit {
    /// How far along the ray. The unit is the caller's.
    pub fraction: u32,
    pub key: u32,
}

/// A ray, as whoever sends it defines it: which boxes it may meet, and where it hits what a key stands for. A box that
/// holds a box that it may meet is one that it may meet.
pub trait Ray {
    ghost reaches: { Self → Bounds → Bool };

    ghost hit: { Self → ℕ → Option ℕ };

    /// Whether the ray may meet something in the box.
    fn reaches(&self, bounds: &Box2) -> bool
        ensures { result ≡ reaches self.now bounds.now };

    /// Where the ray hits what the key stands for.
    fn hit(&self, key: u32) -> Option<u32>
        ensures { result ≡ hit self.now key };

    ghost misses_within: { (ray : Self) (outer inner : Bounds) → Contains outer inner → reaches ray outer ≡ false → reaches ray inner ≡ false };
}

/// The nearer of the best hit so far and what was found at the key; of two as near, that of the lesser key.
pub(crate) fn nearer(best: Option<Hit>, key: u32, found: Option<u32>) -> Option<Hit>
    ensures { result ≡ nearer best key found }
{
    let Some(fraction) = found else {
        return best;
    };
    let Some(hit) = best else {
        return Some(Hit { fraction, key });
    };
    if fraction < hit.fraction {
        Some(Hit { fraction, key })
    } else if hit.fraction < fraction {
        Some(hit)
    } else if key < hit.key {
        Some(Hit { fraction, key })
    } else {
        Some(hit)
    }
}
