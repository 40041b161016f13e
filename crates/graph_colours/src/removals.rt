//! Members that a list loses, taken out where it stands.

ghost use Rattle.std.specs.Prelude.{◌≡◌, ◌<◌, ◌≤◌, ◌+◌, ◌++◌, ◌∷◌, true, false, List, All, length, take, drop, vec_len, vec_capacity};
ghost use Rattle.std.specs.List.{AllWithin};
ghost use Rattle.graph_colours.specs.declared.edits.Edit.{Edit as TheEdit};
ghost use Rattle.graph_colours.specs.Members.{AreRising};
ghost use Rattle.graph_colours.specs.Edits.{edit_number, all_edited, AreInOrder};
ghost use Rattle.graph_colours.specs.Gaps.{IsGap, closed};

use crate::edits::{Edit, is_at};
use crate::member::place_from;
use crate::{ConstraintId, Member};

/// The places from `start` up to `end`, which members have left: those before them are final, and those after them are
/// still to be passed.
#[derive(Clone, Copy)]
struct Gap {
    start: usize,
    end: usize,
}

/// Whether no edit adds a member.
pub(crate) fn are_removals<C: ConstraintId>(edits: &[Edit<C>]) -> bool
    ensures { result ≡ true → All (λ e. e.adds ≡ false) edits.now }
{
    for edit in edits.iter() {
        if edit.adds {
            return false;
        }
    }
    true
}

/// Moves the next so many members down, over the gap.
fn move_down<C: ConstraintId>(list: &mut Vec<Member<C>>, gap: Gap, count: usize)
    requires ordered { gap.start ≤ gap.end }
    requires within { gap.end + count ≤ length list.old.items }
    ensures done { take (gap.start + count) list.new.items ≡ take gap.start list.old.items ++ take count (drop gap.end list.old.items) }
    ensures rest { drop (gap.end + count) list.new.items ≡ drop (gap.end + count) list.old.items }
    ensures len { vec_len list.new ≡ vec_len list.old }
    ensures capacity { vec_capacity list.new ≡ vec_capacity list.old }
{
    list.copy_within(gap.end..gap.end + count, gap.start);
}

/// Moves the members below an edit's down, and leaves out the one that it takes away. Answers the gap that is behind
/// them then.
fn pass_removal<C: ConstraintId>(list: &mut Vec<Member<C>>, gap: Gap, edit: Edit<C>) -> Gap
    requires rising { AreRising C.number (drop gap.end list.old.items) }
    requires gap { IsGap gap (length list.old.items) }
    requires removes { edit.adds ≡ false }
    ensures items { (later : List (TheEdit C)) → All (λ e. edit_number C.number edit < edit_number C.number e) later → closed C.number result later list.new.items ≡ closed C.number gap (edit ∷ later) list.old.items }
    ensures rising { AreRising C.number (drop result.end list.new.items) }
    ensures gap { IsGap result (length list.new.items) }
    ensures capacity { vec_capacity list.new ≡ vec_capacity list.old }
{
    let number = edit.member.id.number();
    let count = place_from(&list[gap.end..], number);
    let gone = is_at(list, gap.end + count, number);
    move_down(list, gap, count);
    let start = gap.start + count;
    if gone {
        Gap {
            start,
            end: gap.end + count + 1,
        }
    } else {
        Gap {
            start,
            end: gap.end + count,
        }
    }
}

/// Closes the gap.
fn close<C: ConstraintId>(list: &mut Vec<Member<C>>, gap: Gap)
    requires gap { IsGap gap (length list.old.items) }
    ensures items { list.new.items ≡ take gap.start list.old.items ++ drop gap.end list.old.items }
    ensures capacity { vec_capacity list.new ≡ vec_capacity list.old }
{
    let count = list.len() - gap.end;
    move_down(list, gap, count);
    list.truncate(gap.start + count);
}

/// Makes the edits, none of which adds a member, in one pass over the members from the place `start` on, below which
/// there is no edit.
fn remove_from<C: ConstraintId>(list: &mut Vec<Member<C>>, start: usize, edits: &[Edit<C>])
    requires rising { AreRising C.number list.old.items }
    requires in_order { AreInOrder C.number edits.now }
    requires removes { All (λ e. e.adds ≡ false) edits.now }
    requires start { start ≤ length list.old.items }
    requires below { AllWithin (λ m. All (λ e. C.number m.id < edit_number C.number e) edits.now) list.old.items 0 start }
    ensures items { list.new.items ≡ all_edited C.number edits.now list.old.items }
    ensures capacity { vec_capacity list.new ≡ vec_capacity list.old }
{
    let mut gap = Gap { start, end: start };
    for place in 0..edits.len() {
        gap = pass_removal(list, gap, edits[place]);
    }
    close(list, gap);
}

/// Makes all edits of a list, which ascend and none of which adds a member, in one pass over the members that stand
/// after the first edit's place. It takes no memory.
pub(crate) fn remove_all<C: ConstraintId>(list: &mut Vec<Member<C>>, edits: &[Edit<C>])
    requires rising { AreRising C.number list.old.items }
    requires in_order { AreInOrder C.number edits.now }
    requires removes { All (λ e. e.adds ≡ false) edits.now }
    ensures items { list.new.items ≡ all_edited C.number edits.now list.old.items }
    ensures capacity { vec_capacity list.new ≡ vec_capacity list.old }
{
    let Some(first) = edits.first() else {
        return;
    };
    let start = place_from(list, first.member.id.number());
    remove_from(list, start, edits);
}
