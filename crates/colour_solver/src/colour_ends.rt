//! Where each colour begins and ends in a list of rows, and its rows there.

ghost use Rattle.std.specs.Prelude.{◌≡◌, ◌≤◌, ◌<◌, [], length, map, take, slice_index_or};
ghost use Rattle.colour_solver.specs.RowVisits.{between};
ghost use Rattle.colour_solver.specs.ColourRows.{AreEnds, cut, last_end, left_of};

use colour_solver_base::ContactRow;
use joint_rows::JointRow;

/// How many joints and how many contacts stand in a colour and in those before it.
#[derive(Clone, Copy)]
pub(crate) struct ColourEnd {
    pub joints: usize,
    pub contacts: usize,
}

/// The rows of a colour: from where it begins up to where it ends.
#[derive(Clone, Copy)]
pub(crate) struct ColourSpan {
    pub start: ColourEnd,
    pub end: ColourEnd,
}

/// Where a colour begins: at the end of the one before it.
pub(crate) fn start_of(ends: &[ColourEnd], colour: usize) -> ColourEnd
    requires { colour ≤ length ends.now }
    ensures joints { result.joints ≡ last_end 0 (take colour (map (λ e. e.joints) ends.now)) }
    ensures contacts { result.contacts ≡ last_end 0 (take colour (map (λ e. e.contacts) ends.now)) }
{
    if colour == 0 {
        return ColourEnd {
            joints: 0,
            contacts: 0,
        };
    }
    ends[colour - 1]
}

/// Where a colour ends.
pub(crate) fn end_of(ends: &[ColourEnd], colour: usize) -> ColourEnd
    requires { colour < length ends.now }
    ensures { result ≡ slice_index_or ends.now colour (record { joints = 0; contacts = 0 }) }
{
    ends[colour]
}

/// The rows from one place up to another.
fn part<T: Copy>(rows: &[T], from: usize, to: usize) -> &[T]
    requires ascend { from ≤ to }
    requires end { to ≤ length rows.now }
    ensures { result.now ≡ between from to rows.now }
{
    &rows[from..to]
}

/// The joints of a colour that has ended.
pub(crate) fn joints_of<'a>(
    joints: &'a [JointRow],
    ends: &[ColourEnd],
    colour: usize,
) -> &'a [JointRow]
    requires ends { AreEnds 0 (map (λ e. e.joints) ends.now) (length joints.now) }
    requires colour { colour < length ends.now }
    ensures { result.now ≡ slice_index_or (cut 0 (map (λ e. e.joints) ends.now) joints.now) colour [] }
{
    part(joints, start_of(ends, colour).joints, ends[colour].joints)
}

/// Its contacts.
pub(crate) fn contacts_of<'a>(
    contacts: &'a [ContactRow],
    ends: &[ColourEnd],
    colour: usize,
) -> &'a [ContactRow]
    requires ends { AreEnds 0 (map (λ e. e.contacts) ends.now) (length contacts.now) }
    requires colour { colour < length ends.now }
    ensures { result.now ≡ slice_index_or (cut 0 (map (λ e. e.contacts) ends.now) contacts.now) colour [] }
{
    part(
        contacts,
        start_of(ends, colour).contacts,
        ends[colour].contacts,
    )
}

/// The joints that have no colour.
pub(crate) fn joints_behind<'a>(joints: &'a [JointRow], ends: &[ColourEnd]) -> &'a [JointRow]
    requires { AreEnds 0 (map (λ e. e.joints) ends.now) (length joints.now) }
    ensures { result.now ≡ left_of 0 (map (λ e. e.joints) ends.now) joints.now }
{
    part(joints, start_of(ends, ends.len()).joints, joints.len())
}

/// The contacts that have no colour.
pub(crate) fn contacts_behind<'a>(
    contacts: &'a [ContactRow],
    ends: &[ColourEnd],
) -> &'a [ContactRow]
    requires { AreEnds 0 (map (λ e. e.contacts) ends.now) (length contacts.now) }
    ensures { result.now ≡ left_of 0 (map (λ e. e.contacts) ends.now) contacts.now }
{
    part(
        contacts,
        start_of(ends, ends.len()).contacts,
        contacts.len(),
    )
}
