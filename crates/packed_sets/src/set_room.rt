//! Room for ids and for sets.

ghost use Rattle.std.specs.Prelude.{◌≡◌, ◌-◌, ◌≤◌, ◌++◌, OnOk, length, replicate, vec_capacity};
ghost use Rattle.std.specs.Result.{IsOkUnless};

use fixed_geom::Refusal;

/// Makes room for so many in all.
pub(crate) fn reserve_in_all<T: Copy>(list: &mut Vec<T>, count: usize) -> Result<(), Refusal>
    ensures made { OnOk result (count ≤ vec_capacity list.new) }
    ensures items { list.new.items ≡ list.old.items }
    ensures capacity { vec_capacity list.old ≤ vec_capacity list.new }
    ensures memory_only { IsOkUnless result Refusal.NoMemory }
{
    list.reserve(count.max(list.len()) - list.len())?;
    Ok(())
}

/// Makes the list at least so long, for which there is room.
pub(crate) fn fill<T: Copy>(list: &mut Vec<T>, count: usize, item: T)
    requires { count ≤ vec_capacity list.old }
    ensures items { list.new.items ≡ list.old.items ++ replicate (count - length list.old.items) item }
    ensures capacity { vec_capacity list.old ≤ vec_capacity list.new }
{
    if list.len() < count {
        let _ = list.resize(count, item);
    }
}
