//! Members of objects.

ghost use Rattle.std.specs.Prelude.{◌∷◌, [], OnOk, map};
ghost use Rattle.serde_json.specs.Data.{Data};
ghost use Rattle.saved_text.specs.Leaves.{member_of};
ghost use Rattle.saved_text.specs.Tokens.{AddsMembers, AddsValue, IsObject};

use crate::leaves::{Leaf, put_leaf};
use json::Writer;
use std::alloc::AllocError;

fn put_member(out: &mut Writer, member: (&str, Leaf<'_>)) -> Result<(), AllocError>
    ensures text { OnOk result (AddsMembers (member_of member.entry ∷ []) out.old out.new) }
{
    out.key(member.0)?;
    put_leaf(out, member.1)?;
    Ok(())
}

/// Writes members in this order.
pub(crate) fn put_members(out: &mut Writer, members: &[(&str, Leaf<'_>)]) -> Result<(), AllocError>
    ensures text { OnOk result (AddsMembers (map member_of members.now) out.old out.new) }
{
    for member in members {
        put_member(out, *member)?;
    }
    Ok(())
}

/// Writes an object of these members, whose keys ascend.
pub(crate) fn put_object(out: &mut Writer, members: &[(&str, Leaf<'_>)]) -> Result<(), AllocError>
    ensures text { (d : Data) → IsObject (map member_of members.now) d → OnOk result (AddsValue d out.old out.new) }
{
    out.begin_object()?;
    put_members(out, members)?;
    out.end_object()?;
    Ok(())
}
