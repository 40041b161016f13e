//! The colours from their lists, as a saved world has them.

ghost use Rattle.std.specs.Prelude.{◌≡◌, ◌≢◌, ◌<◌, ◌+◌, ℕ, All, IfOk, length};
ghost use Rattle.std.specs.Result.{IsOkUnless};
ghost use Rattle.graph_colours.specs.declared.limits.TheConstants.{COLOURS};
ghost use Rattle.graph_colours.specs.Colours.{IsColouring, all_members};
ghost use Rattle.graph_colours.specs.Members.{AreRising};
ghost use Rattle.graph_colours.specs.TakenColours.{AreTakenColours, any_has_mover, bit_of, colour_bit};
ghost use Rattle.graph_colours.specs.Graph.{lists_of, AreAtRest};
ghost use Rattle.graph_colours.specs.Given.{AreAllBelow, members_of};

use crate::colours::{Colours, Size};
use crate::edited::EditedList;
use crate::limits::COLOURS;
use crate::lists::reserve_all;
use crate::taken_colours::{grow, set_colour_bits};
use crate::{ConstraintId, Member};
use fixed_geom::Refusal;
use std::alloc::Global;

/// Sets the bits of a colour, of which none is set yet, in the slots of its members' movers.
fn set_list_bits<C: ConstraintId>(words: &mut Vec<u32>, colour: usize, members: &[Member<C>])
    requires colour { colour < COLOURS }
    requires below { AreAllBelow (length words.old.items) members.now }
    requires clear { (slot : ℕ) → colour_bit words.old.items slot colour ≡ 0 }
    ensures own { (slot : ℕ) → colour_bit words.new.items slot colour ≡ bit_of (any_has_mover members.now slot) }
    ensures others { (slot other : ℕ) → other ≢ colour → colour_bit words.new.items slot other ≡ colour_bit words.old.items slot other }
    ensures long { length words.new.items ≡ length words.old.items }
{
    for place in 0..members.len() {
        set_colour_bits(words, colour, members[place].movers, true);
    }
}

/// Sets the bits of all colours, where no bit is set yet.
fn set_all_bits<C: ConstraintId>(words: &mut Vec<u32>, lists: &[Vec<Member<C>>])
    requires count { length (members_of lists.now) ≡ COLOURS + 1 }
    requires below { All (AreAllBelow (length words.old.items)) (members_of lists.now) }
    requires clear { (slot colour : ℕ) → colour_bit words.old.items slot colour ≡ 0 }
    ensures bits { AreTakenColours (members_of lists.now) words.new.items }
    ensures long { length words.new.items ≡ length words.old.items }
{
    for colour in 0..COLOURS {
        set_list_bits(words, colour, lists[colour].as_slice());
    }
}

/// The bits of these lists, for slots below `slots`.
fn bits_of<C: ConstraintId>(
    alloc: Global,
    lists: &[Vec<Member<C>>],
    slots: usize,
) -> Result<Vec<u32>, Refusal>
    requires count { length (members_of lists.now) ≡ COLOURS + 1 }
    requires below { All (AreAllBelow slots) (members_of lists.now) }
    ensures bits { IfOk result (λ words. AreTakenColours (members_of lists.now) words.items) }
    ensures long { IfOk result (λ words. length words.items ≡ slots) }
    ensures memory_only { IsOkUnless result Refusal.NoMemory }
{
    let mut words = vec![in alloc; 0; slots]?;
    set_all_bits(&mut words, lists);
    Ok(words)
}

/// A list of each list's members.
fn edited_lists<C: ConstraintId>(
    alloc: Global,
    lists: &[Vec<Member<C>>],
) -> Result<Vec<EditedList<C>>, Refusal>
    requires { All (AreRising C.number) (members_of lists.now) }
    ensures lists { IfOk result (λ made. lists_of made.items ≡ members_of lists.now) }
    ensures rest { IfOk result (λ made. AreAtRest made.items) }
    ensures memory_only { IsOkUnless result Refusal.NoMemory }
{
    let mut made = Vec::new(alloc);
    for place in 0..lists.len() {
        made.push(EditedList::from_members(alloc, lists[place].as_slice())?)?;
    }
    Ok(made)
}

impl<C: ConstraintId> Colours<C> {
    /// The colours of which these are the members, those in the overflow last; `count` says how many they are in all.
    /// The movers' slots are below `slots`. Has no room for more.
    pub fn from_lists(
        alloc: Global,
        lists: &[Vec<Member<C>>],
        count: usize,
        slots: usize,
    ) -> Result<Colours<C>, Refusal>
        requires colouring { IsColouring C.number (members_of lists.now) }
        requires below { All (AreAllBelow slots) (members_of lists.now) }
        requires count { count ≡ length (all_members (members_of lists.now)) }
        ensures lists { IfOk result (λ made. made.lists ≡ members_of lists.now) }
        ensures room { IfOk result (λ made. made.room ≡ 0) }
        ensures slots { IfOk result (λ made. made.slots ≡ slots) }
        ensures pending { IfOk result (λ made. made.pending ≡ 0) }
        ensures memory_only { IsOkUnless result Refusal.NoMemory }
    {
        let words = bits_of(alloc, lists, slots)?;
        let mut edited = edited_lists(alloc, lists)?;
        reserve_all(&mut edited, count)?;
        Ok(Colours {
            lists: edited,
            words,
            spare: Vec::new(alloc),
            size: Size {
                count,
                total: count,
                slots,
            },
            flushed: true,
        })
    }
}
