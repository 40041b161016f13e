//! Lists that were given room before.

ghost use Rattle.std.specs.Prelude.{◌≡◌, ◌+◌, ◌<◌, ◌≤◌, ◌++◌, ◌∷◌, [], vec_len, vec_capacity, OnOk};
ghost use Rattle.std.specs.Result.{IsOkUnless};
ghost use Rattle.islands.specs.Packed.{filled};

use fixed_geom::Refusal;

/// Makes room for n items in all.
pub(crate) fn reserve_in_all<T: Copy>(list: &mut Vec<T>, n: usize) -> Result<(), Refusal>
    ensures made { OnOk result (n ≤ vec_capacity list.new) }
    ensures items { list.new.items ≡ list.old.items }
    ensures capacity { vec_capacity list.old ≤ vec_capacity list.new }
    ensures memory_only { IsOkUnless result Refusal.NoMemory }
{
    list.reserve(n.max(list.len()) - list.len())?;
    Ok(())
}

/// Adds an item, for which there is room.
pub(crate) fn push_in_room<T: Copy>(list: &mut Vec<T>, item: T)
    requires { vec_len list.old < vec_capacity list.old }
    ensures items { list.new.items ≡ list.old.items ++ item ∷ [] }
    ensures len { vec_len list.new ≡ vec_len list.old + 1 }
    ensures capacity { vec_capacity list.old ≤ vec_capacity list.new }
{
    let _ = list.push(item);
}

/// Makes the list at least n items long, for which there is room.
pub(crate) fn pad<T: Copy>(list: &mut Vec<T>, n: usize, item: T)
    requires { n ≤ vec_capacity list.old }
    ensures items { list.new.items ≡ filled item list.old.items n }
    ensures capacity { vec_capacity list.old ≤ vec_capacity list.new }
{
    if list.len() < n {
        let _ = list.resize(n, item);
    }
}
