//! Mirrors before they are opened.

ghost use Rattle.std.specs.Prelude.{◌≡◌, ◌≤◌, ◌∷◌, ◌&&◌, cond, nat_le, [], None, All, vec_len, vec_capacity, IfOk, IfErr, IfSome, OnOk, unwrap_or};
ghost use Rattle.std.specs.Result.{IsOkUnless};
ghost use Rattle.std.specs.Arc.{arc_value};
ghost use Rattle.frame_mirror.specs.Refused.{readers_refusal};

use crate::list::{Add, FrameList, Mirrored, NoGain};
use crate::mark::{ListLength, Mark};
use crate::publisher::{Publisher, Writer};
use crate::reader::Reader;
use crate::slot::{Change, Showing, empty_slot};
use fixed_geom::Refusal;
use left_right::Absorb;
use logbook::{Offer, Seen, Start, Word};
use std::alloc::Global;
use std::marker::{Model, PhantomData};
use std::sync::Arc;
use world_core::Frame;

/// The most readers that a mirror has.
const MOST_READERS: usize = 32;

/// A mirror that isn't open yet. Contracts see it as the book of its list of frames, by which it gets its name.
#[derive(Drop)]
pub struct Mirror {
    word: Word<Frame, u64, FrameList>,
    seen: Seen<Frame, u64, FrameList>,
}

impl Model for Mirror {
    ghost use Rattle.std.specs.Prelude.{◌≡◌, []};
    ghost use Rattle.logbook.specs.Pages.{Book};
    ghost use Rattle.frame_mirror.specs.Rules.{length_word};

    ghost Value = { Book };

    ghost view = { λ m. m.seen.book };

    ghost invariant = { λ m. (m.seen.log ≡ []) × (m.word ≡ length_word m.seen.book) };
}

impl Mirror {
    /// A mirror that shows nothing yet. It takes no memory.
    pub fn new() -> Mirror {
        let (seen, mut first, _second) = Seen::open(Start::alone(), 0, 0);
        Mirror {
            word: Word::tracked(0, &mut first),
            seen,
        }
    }

    /// The list with its first frame, and a mark of it; `None` where the list has one already.
    fn begin<J: Mirrored>(self, frame: Arc<Frame>) -> Option<(ListLength<J>, Mark<J>)>
        requires { self ≡ J.book }
        ensures { IfSome result (λ r. r.1 ≡ arc_value frame ∷ []) }
    {
        let Mirror { word, mut seen } = self;
        let mut offer: Offer<Frame, u64, FrameList, NoGain> = seen.plain::<NoGain, Frame, Add>(
            &*frame,
        );
        let mut pen = seen.no_pen();
        let found = word.compare_exchange::<Add, NoGain>(0, 1, &mut seen, &mut offer, &mut pen);
        if found != 0 {
            return None;
        }
        let list = ListLength {
            word,
            of: PhantomData,
        };
        let mark = Mark {
            frame,
            place: 0,
            seen,
            of: PhantomData,
        };
        Some((list, mark))
    }

    /// Opens the mirror to so many readers, 1 to 32. The list is this frame alone, which the mark of the publisher and
    /// of each reader covers. Refused 5 for any other number of readers, else 1 where memory is wanting.
    pub fn open<J: Mirrored>(
        self,
        alloc: Global,
        frame: Arc<Frame>,
        readers: usize,
    ) -> Result<(Publisher<J>, Vec<Reader<J>>), Refusal>
    where
        Showing<Mark<J>>: Absorb<Change<Mark<J>>, State = ()>,
        requires { self ≡ J.book }
        ensures publisher { IfOk result (λ r. r.0 ≡ arc_value frame ∷ []) }
        ensures readers { IfOk result (λ r. (vec_len r.1 ≡ readers) × All (λ d. d ≡ arc_value frame ∷ []) r.1.items) }
        ensures range { OnOk result (readers_refusal readers ≡ None) }
        ensures refusal { IfErr result (λ e. e ≡ unwrap_or (readers_refusal readers) Refusal.NoMemory) }
    {
        if readers < 1 || readers > MOST_READERS {
            return Err(Refusal::OutOfRange);
        }
        let Some((list, kept)) = self.begin::<J>(frame) else {
            return Err(Refusal::NoMemory);
        };
        let marks = copies(alloc, &kept, readers)?;
        let seats = Vec::with_capacity(alloc, readers)?;
        let slot = empty_slot(alloc)?;
        let first = Showing {
            slot: Arc::try_clone(&slot)?,
        };
        let writer: Writer<J> = left_right::writer::Writer::new(
            alloc,
            first,
            Showing { slot },
            readers,
        )?;
        let readers = seat_readers(&writer, marks, seats);
        Ok((Publisher::new(alloc, writer, list, kept), readers))
    }
}

/// So many copies of a mark.
fn copies<J: Mirrored>(alloc: Global, mark: &Mark<J>, count: usize) -> Result<Vec<Mark<J>>, Refusal>
    ensures copies { IfOk result (λ v. (vec_len v ≡ count) × All (λ m. m ≡ mark.now) v.items) }
    ensures memory_only { IsOkUnless result Refusal.NoMemory }
{
    let mut all = Vec::with_capacity(alloc, count)?;
    for _ in 0..count {
        all.push_reserved(mark.try_copy()?);
    }
    Ok(all)
}

/// A reader for each mark.
fn seat_readers<J: Mirrored>(
    writer: &Writer<J>,
    marks: Vec<Mark<J>>,
    mut readers: Vec<Reader<J>>,
) -> Vec<Reader<J>>
where
    Showing<Mark<J>>: Absorb<Change<Mark<J>>, State = ()>,
    requires { (readers.items ≡ []) × (vec_len marks ≤ vec_capacity readers) }
    ensures { result.items ≡ marks.items }
{
    for mark in marks {
        readers.push_reserved(Reader::new(writer.factory().reader().ok(), mark));
    }
    readers
}
