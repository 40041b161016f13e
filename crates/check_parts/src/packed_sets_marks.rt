//! Marks: new slots are marked, and once the marks were taken away only those that were marked since.

use crate::assertions::{same, same_items};
use fixed_geom::Refusal;
use packed_sets::Marks;
use std::alloc::Global;
use std::test::Fail;

fn three(alloc: Global) -> Result<Marks, Refusal> {
    let mut marks = Marks::all_marked(alloc, 2)?;
    marks.grow()?;
    Ok(marks)
}

#[test]
fn only_what_was_marked_since_is_marked(rt: HostRuntime) -> Result<(), Fail> {
    let mut marks = three(rt.alloc())?;
    same_items(&rt, marks.slots(), &[0, 1, 2]);
    marks.clear();
    marks.mark(1);
    marks.mark(1);
    marks.mark_if(0, false);
    marks.mark_if(2, true);
    same_items(&rt, marks.flags(), &[false, true, true]);
    let copied = marks.try_copy()?;
    same_items(&rt, copied.slots(), &[1, 2]);
    same(&rt, &copied.is_marked(3), &true);
    same(&rt, &copied.len(), &3);
    Ok(())
}
