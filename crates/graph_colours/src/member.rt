//! Constraints with their movers, in lists that ascend by id.

ghost use Rattle.std.specs.Prelude.{◌≡◌, ℕ, ◌<◌, ◌≤◌, ◌+◌, length, vec_len, vec_capacity};
ghost use Rattle.std.specs.List.{AllWithin};
ghost use Rattle.graph_colours.specs.Members.{AreRising, inserted, without_member};
ghost use Rattle.graph_colours.specs.FoundMembers.{movers_of, with_number};

/// The name of a constraint. Constraints are solved in the order of these numbers, and two names
/// with one number are one constraint.
pub trait ConstraintId: Copy {
    ghost number: { Self → ℕ };

    /// The number that names the constraint.
    fn number(&self) -> u128
        ensures { result ≡ number self.now };
}

/// The slots of the movers that a constraint acts on: one or two.
#[derive(Clone, Copy, Debug, PartialEq, Eq)]
pub struct Movers {
    pub first: u32,
    pub second: Option<u32>,
}

/// A constraint that has a colour.
#[derive(Clone, Copy, Debug, PartialEq, Eq)]
pub struct Member<C> {
    pub id: C,
    pub movers: Movers,
}

/// The place of the first member whose id's number is at least `wanted`, or the list's length.
pub(crate) fn place_from<C: ConstraintId>(members: &[Member<C>], wanted: u128) -> usize
    requires { AreRising C.number members.now }
    ensures within { result ≤ length members.now }
    ensures before { AllWithin (λ m. C.number m.id < wanted) members.now 0 result }
    ensures after { AllWithin (λ m. wanted ≤ C.number m.id) members.now result (length members.now) }
{
    members.partition_point(|member| member.id.number() < wanted)
}

/// The member whose id has this number.
pub(crate) fn with_number<C: ConstraintId>(members: &[Member<C>], wanted: u128) -> Option<Member<C>>
    requires { AreRising C.number members.now }
    ensures { result ≡ with_number C.number wanted members.now }
{
    let member = *members.get(place_from(members, wanted))?;
    if member.id.number() != wanted {
        return None;
    }
    Some(member)
}

/// Adds a member, for which there is room.
pub(crate) fn insert<C: ConstraintId>(members: &mut Vec<Member<C>>, member: Member<C>)
    requires rising { AreRising C.number members.old.items }
    requires room { vec_len members.old < vec_capacity members.old }
    ensures items { members.new.items ≡ inserted C.number member members.old.items }
    ensures len { vec_len members.new ≡ vec_len members.old + 1 }
    ensures capacity { vec_capacity members.old ≤ vec_capacity members.new }
{
    let place = place_from(members, member.id.number());
    let _ = members.insert(place, member);
}

/// Takes out the member that has the id, and answers its movers.
pub(crate) fn remove<C: ConstraintId>(members: &mut Vec<Member<C>>, id: C) -> Option<Movers>
    requires { AreRising C.number members.old.items }
    ensures value { result ≡ movers_of C.number id members.old.items }
    ensures items { members.new.items ≡ without_member C.number id members.old.items }
    ensures len { vec_len members.new ≤ vec_len members.old }
    ensures capacity { vec_capacity members.new ≡ vec_capacity members.old }
{
    let wanted = id.number();
    let place = place_from(members, wanted);
    let member = *members.get(place)?;
    if member.id.number() != wanted {
        return None;
    }
    members.remove(place);
    Some(member.movers)
}
