//! Items on a stack: the last of a list is taken first.

ghost use Rattle.std.specs.Prelude.{◌≡◌, ◌++◌, ◌+◌, ◌≤◌, [], reverse, vec_len, vec_capacity};
ghost use Rattle.crew.specs.Answers.{AreAccepted, owed};

use crate::Work;
use std::sync::Wait;

/// Moves the last `count` items onto an empty stack that has room for them, the last one first.
pub(crate) fn stack_last<T>(items: &mut Vec<T>, stack: &mut Vec<T>, count: usize)
    requires many { count ≤ vec_len items.old }
    requires empty { stack.old.items ≡ [] }
    requires room { count ≤ vec_capacity stack.old }
    ensures whole { items.new.items ++ reverse stack.new.items ≡ items.old.items }
    ensures capacity { vec_capacity items.new ≡ vec_capacity items.old }
    ensures long { vec_len items.new + count ≡ vec_len items.old }
{
    for moved in 0..count {
        if let Some(item) = items.pop() {
            stack.push_reserved(item);
        }
    }
}

/// Works the items of a stack and adds the answers, as long as there is room for them.
pub(crate) fn work_stack<R: Wait, W: Work>(
    rt: &R,
    work: &W,
    stack: &mut Vec<W::Item>,
    answers: &mut Vec<W::Out>,
)
    requires accepted { AreAccepted W.accepts work.now stack.old.items }
    ensures owed { owed W.answer work.now stack.new.items answers.new.items ≡ owed W.answer work.now stack.old.items answers.old.items }
    ensures accepted { AreAccepted W.accepts work.now stack.new.items }
    ensures capacity { vec_capacity answers.new ≡ vec_capacity answers.old }
    ensures kept { vec_capacity stack.new ≡ vec_capacity stack.old }
    ensures all { vec_len answers.old + vec_len stack.old ≤ vec_capacity answers.old → stack.new.items ≡ [] }
{
    for worked in 0..stack.len() {
        if answers.len() == answers.capacity() {
            return;
        }
        if let Some(item) = stack.pop() {
            answers.push_reserved(work.work(rt, item));
        }
    }
}
