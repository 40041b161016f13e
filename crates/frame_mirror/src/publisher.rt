//! The publisher, which may wait.

ghost use Rattle.std.specs.Prelude.{◌≡◌, ◌≤◌, ◌<◌, ◌^◌, ◌++◌, ◌∷◌, [], length, IfOk, IfErr, MatchBool, OnErr, OnOk};
ghost use Rattle.std.specs.Result.{IsOkUnless};
ghost use Rattle.std.specs.Arc.{arc_value};
ghost use Rattle.world_core.specs.Frames.{View};
ghost use Rattle.world_lock.specs.Histories.{Met, Shown};
ghost use Rattle.frame_mirror.specs.Lists.{EndsWith};
ghost use Rattle.frame_mirror.specs.Refused.{MayRefuse};

use crate::list::Mirrored;
use crate::mark::{ListLength, Mark};
use crate::slot::{Change, Showing, empty_slot};
use crate::source::FrameSource;
use crossbeam_utils::rule::Unruled;
use fixed_geom::Refusal;
use left_right::Absorb;
use std::alloc::{AllocError, Global};
use std::marker::Model;
use std::sync::{Arc, Wait};
use world_core::Frame;
use world_lock::{Opened, Seat};

/// How many frames a list has at most.
const MOST_FRAMES: u64 = 1 << 40;

/// What the publisher has of the two copies that are shown.
pub(crate) type Writer<J> = left_right::writer::Writer<
    Showing<Mark<J>>,
    Change<Mark<J>>,
    (),
    Unruled,
>;

/// The one publisher of a mirror. Contracts see it as the published frames. It is ended by `close`.
pub struct Publisher<J: Mirrored>
where
    Showing<Mark<J>>: Absorb<Change<Mark<J>>, State = ()>,
{
    alloc: Global,
    writer: Option<Writer<J>>,
    list: ListLength<J>,
    kept: Mark<J>,
}

impl<J: Mirrored> Model for Publisher<J>
where
    Showing<Mark<J>>: Absorb<Change<Mark<J>>, State = ()>,
{
    ghost use Rattle.std.specs.Prelude.{◌≤◌, ◌^◌, List, length};
    ghost use Rattle.world_core.specs.Frames.{View};

    ghost Value = { List View };

    ghost view = { λ p. p.kept };

    ghost invariant = { λ p. length p.kept ≤ 2 ^ 40 };
}

impl<J: Mirrored> Publisher<J>
where
    Showing<Mark<J>>: Absorb<Change<Mark<J>>, State = ()>,
{
    pub(crate) fn new(
        alloc: Global,
        writer: Writer<J>,
        list: ListLength<J>,
        kept: Mark<J>,
    ) -> Publisher<J>
        requires { length kept ≤ 2 ^ 40 }
        ensures { result ≡ kept }
    {
        Publisher {
            alloc,
            writer: Some(writer),
            list,
            kept,
        }
    }

    /// Shows a slot to the readers. Refused where memory is wanting, and then they may see the slot or the one before.
    fn show<R: Wait>(&mut self, rt: &R, slot: Change<Mark<J>>) -> Result<(), AllocError>
        ensures { self.new ≡ self.old }
    {
        let Some(mut writer) = self.writer.take() else {
            return Err(AllocError);
        };
        let appended = writer.append(slot).is_ok();
        let (writer, published) = writer.publish_as::<Unruled, R>(rt);
        if let Some(old) = self.writer.replace(writer) {
            drop(old.take(rt));
        }
        if appended { published } else { Err(AllocError) }
    }

    /// Adds a frame that isn't older than the last one. All that may be refused comes before the frame enters the list:
    /// readers are shown an empty slot first, which then gets the mark.
    fn add<R: Wait>(&mut self, rt: &R, frame: Arc<Frame>) -> Result<(), Refusal>
        requires room { length self.old < 2 ^ 40 }
        requires later { (last : View) × EndsWith self.old last × (last.calls ≤ (arc_value frame).calls) }
        ensures added { OnOk result (self.new ≡ self.old ++ arc_value frame ∷ []) }
        ensures same { OnErr result (self.new ≡ self.old) }
        ensures memory_only { IsOkUnless result Refusal.NoMemory }
    {
        let again = Arc::try_clone(&frame)?;
        let slot = empty_slot(self.alloc)?;
        self.show(rt, Arc::try_clone(&slot)?)?;
        let Some((mark, copy)) = self.kept.and(&self.list, frame, again) else {
            return Err(Refusal::NoMemory);
        };
        let _ = slot.top.try_set(copy);
        self.kept = mark;
        Ok(())
    }

    /// Whether the list has as many frames as it may have.
    fn is_worn_out(&self) -> bool
        ensures { MatchBool result (2 ^ 40 ≤ length self.now) (length self.now < 2 ^ 40) }
    {
        self.kept.len() >= MOST_FRAMES
    }

    /// Publishes a frame, and gives its call number. Refused 10 where the list has 2^40 frames, 14 where the frame is
    /// older than the last one, else 1 where memory is wanting.
    fn publish_frame<R: Wait>(&mut self, rt: &R, frame: Arc<Frame>) -> Result<u64, Refusal>
        ensures added { IfOk result (λ n. (last : View) × EndsWith self.old last × (last.calls ≤ n) × ((arc_value frame).calls ≡ n) × (self.new ≡ self.old ++ arc_value frame ∷ [])) }
        ensures room { OnOk result (length self.old < 2 ^ 40) }
        ensures same { OnErr result (self.new ≡ self.old) }
        ensures refusal { IfErr result (λ e. MayRefuse self.old (λ f. f ≡ arc_value frame) e) }
    {
        if self.is_worn_out() {
            return Err(Refusal::WornOut);
        }
        let calls = frame.calls();
        if calls < self.kept.frame().calls() {
            return Err(Refusal::WentBack);
        }
        self.add(rt, frame)?;
        Ok(calls)
    }

    /// Publishes a frame that the source gives for this seat, and gives its call number, which isn't lower than that of
    /// the frame before. Refused 10 just where the list has 2^40 frames, as the source refuses, 14 where the frame's
    /// call number is lower than that of the last one, or 1 where memory is wanting, in this order; then the list is as
    /// it was. Whatever is answered, the seat has then seen one past of it.
    pub fn publish<N: Opened, R: Wait, S: FrameSource<N>>(
        &mut self,
        rt: &R,
        source: &S,
        seat: &mut Seat<N>,
    ) -> Result<u64, Refusal>
        ensures added { IfOk result (λ n. (f : View) × (last : View) × Shown N.opening seat.old f seat.new × EndsWith self.old last × (last.calls ≤ n) × (f.calls ≡ n) × (self.new ≡ self.old ++ f ∷ [])) }
        ensures room { OnOk result (length self.old < 2 ^ 40) }
        ensures same { OnErr result (self.new ≡ self.old) }
        ensures refusal { IfErr result (λ e. MayRefuse self.old (λ f. Shown N.opening seat.old f seat.new) e) }
        ensures met { Met N.opening seat.old seat.new }
    {
        match source.frame(rt, seat) {
            Ok(frame) => self.publish_frame(rt, frame),
            Err(refusal) => {
                if self.is_worn_out() {
                    return Err(Refusal::WornOut);
                }
                Err(refusal)
            }
        }
    }

    /// A mark of all published frames.
    pub fn seen(&self) -> Result<Mark<J>, Refusal>
        ensures same { IfOk result (λ m. m ≡ self.now) }
        ensures memory_only { IsOkUnless result Refusal.NoMemory }
    {
        self.kept.try_copy()
    }

    /// Ends the publisher: it waits until no reader looks at what is shown. The readers then answer from the frames
    /// that they keep.
    pub fn close<R: Wait>(self, rt: &R) {
        let Publisher {
            alloc: _,
            writer,
            list: _list,
            kept: _kept,
        } = self;
        if let Some(writer) = writer {
            drop(writer.take(rt));
        }
    }
}
