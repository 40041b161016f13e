//! The law of joint rows.

ghost use Rattle.joint_rows.specs.Laws.{RowsAreJoints};

/// The visits of a row are what the definition makes of its joint: what the solver computes once a step, and keeps in
/// the row, is what the definition computes anew from the joint and from its bodies as they stood when the step began.
/// The function does nothing; its contract is the law.
pub fn rows_are_joints()
    ensures { RowsAreJoints }
{}
