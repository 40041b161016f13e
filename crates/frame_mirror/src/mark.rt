//! Beginnings of the list of published frames.

ghost use Rattle.std.specs.Prelude.{◌≡◌, ◌≤◌, ◌<◌, ◌^◌, ◌++◌, ◌∷◌, [], length, MatchBool, IfOk, IfSome};
ghost use Rattle.std.specs.Result.{IsOkUnless};
ghost use Rattle.std.specs.Arc.{arc_value};
ghost use mathlib.Core.List.{IsPrefix};
ghost use Rattle.world_core.specs.Frames.{View};
ghost use Rattle.frame_mirror.specs.Rules.{length_word};
ghost use Rattle.frame_mirror.specs.Lists.{AreInOrder, EndsWith};

use crate::list::{Add, FrameList, Mirrored, NoGain};
use fixed_geom::Refusal;
use logbook::{Offer, Seen, Word};
use std::marker::{Model, PhantomData};
use std::sync::Arc;
use world_core::Frame;

/// The word of the list, which is its length. Only the publisher has it.
#[derive(Drop)]
pub(crate) struct ListLength<J: Mirrored> {
    pub(crate) word: Word<Frame, u64, FrameList>,
    pub(crate) of: PhantomData<J>,
    ghost word_is: { word ≡ length_word J.book },
}

/// A beginning of a mirror's list of published frames, with its last frame. Contracts see it as its frames.
#[derive(Drop)]
pub struct Mark<J: Mirrored> {
    pub(crate) frame: Arc<Frame>,
    // Where that frame stands in the list, counted from 0.
    pub(crate) place: u64,
    pub(crate) seen: Seen<Frame, u64, FrameList>,
    pub(crate) of: PhantomData<J>,
}

impl<J: Mirrored> Model for Mark<J> {
    ghost use Rattle.std.specs.Prelude.{◌≡◌, ◌+◌, List, length};
    ghost use Rattle.std.specs.Arc.{arc_value};
    ghost use Rattle.world_core.specs.Frames.{View};
    ghost use Rattle.frame_mirror.specs.Lists.{AreInOrder, EndsWith};

    ghost Value = { List View };

    ghost view = { λ m. m.seen.log };

    ghost invariant = { λ m. (length m.seen.log ≡ m.place + 1) × (m.seen.book ≡ J.book) × EndsWith m.seen.log (arc_value m.frame) × AreInOrder m.seen.log };
}

impl<J: Mirrored> Mark<J> {
    /// Its last frame. Among its frames no call number is lower than the one before it.
    pub fn frame(&self) -> &Frame
        ensures last { EndsWith self.now result.now }
        ensures order { AreInOrder self.now }
    {
        &*self.frame
    }

    /// A mark of the same frames.
    pub fn try_copy(&self) -> Result<Mark<J>, Refusal>
        ensures same { IfOk result (λ m. m ≡ self.now) }
        ensures memory_only { IsOkUnless result Refusal.NoMemory }
    {
        Ok(Mark {
            frame: Arc::try_clone(&self.frame)?,
            place: self.place,
            seen: self.seen.again(),
            of: PhantomData,
        })
    }

    /// Whether it covers the other mark of this mirror. Both are beginnings of one list, so where it doesn't, the other
    /// is longer and covers it.
    pub fn covers(&self, other: &Mark<J>) -> bool
        ensures { MatchBool result (IsPrefix other.now self.now) (IsPrefix self.now other.now × (length self.now < length other.now)) }
    {
        let mut both = self.seen.again();
        both.learn(&other.seen);
        other.place <= self.place
    }

    /// How many frames it has.
    pub(crate) fn len(&self) -> u64
        requires { length self.now < 2 ^ 62 }
        ensures { result ≡ length self.now }
    {
        self.place + 1
    }

    /// Adds a frame to the list, and gives two marks of the whole: `None` where the list is longer than this mark.
    /// `again` is a second owner of the frame.
    pub(crate) fn and(
        &self,
        list: &ListLength<J>,
        frame: Arc<Frame>,
        again: Arc<Frame>,
    ) -> Option<(Mark<J>, Mark<J>)>
        requires room { length self.now < 2 ^ 62 }
        requires alike { arc_value again ≡ arc_value frame }
        requires later { (last : View) × EndsWith self.now last × (last.calls ≤ (arc_value frame).calls) }
        ensures { IfSome result (λ r. (r.0 ≡ self.now ++ arc_value frame ∷ []) × (r.1 ≡ r.0)) }
    {
        let mut seen = self.seen.again();
        let mut offer: Offer<Frame, u64, FrameList, NoGain> = seen.plain::<NoGain, Frame, Add>(
            &*frame,
        );
        let mut pen = seen.no_pen();
        let old = self.place + 1;
        let found = list
            .word
            .compare_exchange::<Add, NoGain>(old, old + 1, &mut seen, &mut offer, &mut pen);
        if found != old {
            return None;
        }
        let copy = Mark {
            frame: again,
            place: old,
            seen: seen.again(),
            of: PhantomData,
        };
        let mark = Mark {
            frame,
            place: old,
            seen,
            of: PhantomData,
        };
        Some((mark, copy))
    }
}
