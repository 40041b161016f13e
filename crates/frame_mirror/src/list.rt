//! The list of published frames, which exists in proofs alone.

use logbook::{Gain, Plain, Play, Rule};
use std::marker::Brand;
use world_core::Frame;

/// Names one mirror. It has no calls: whoever opens a mirror is generic in its name, and is called at `Brand`. The name
/// of a shared world can be the name of its mirror too.
pub trait Mirrored {
    ghost use Rattle.logbook.specs.Pages.{Book};

    // The book of its list of frames.
    ghost book: { Book };
}

impl Mirrored for Brand {
    ghost book = { record { number = 0; log_name = 0; cells_name = 0 } };
}

/// The rule of the list: its word is its length, and call numbers never go down.
pub struct FrameList;

impl Rule<Frame, u64> for FrameList {
    ghost use Rattle.std.specs.Prelude.{[]};
    ghost use base.Fml.{ftrue};
    ghost use Rattle.frame_mirror.specs.Rules.{IsKept};

    ghost holds = { λ cells log. IsKept cells log };

    ghost first = { [] };

    ghost hinted = { λ n log. Unit {0} };

    ghost shows = { λ log. [] };

    ghost keeps = { λ names log. ftrue };

    ghost moves = { λ ask before after answer. Unit {0} };
}

/// Who adds a frame trades nothing for it.
pub struct NoGain;

impl Gain<Frame, u64> for NoGain {
    ghost use base.Fml.{ftrue};

    ghost after = { λ names about answer. ftrue };
}

/// The step that adds a frame to the list.
pub struct Add;

impl Play<Frame, u64> for Add {
    ghost use Rattle.frame_mirror.specs.Rules.{Adds};

    ghost then = { Adds };
}

impl Plain<Frame, Frame, u64> for Add {
    ghost use Rattle.std.specs.Prelude.{None};

    ghost ask = { λ frame. frame };

    ghost state = { λ frame. None };
}
