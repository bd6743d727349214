//! Room that is made, and what is put where there is room for it.
ghost use Rattle.std.specs.Prelude.{◌≡◌, ◌<◌, ◌++◌, ◌∷◌, [], vec_len, vec_capacity, OnOk};

use reg_base::Memory;

// Makes room for one more item.
pub(crate) fn make_room<T: Drop>(items: &mut Vec<T>) -> Result<(), Memory>
    ensures room { OnOk result (vec_len items.new < vec_capacity items.new) }
    ensures same { items.new.items ≡ items.old.items }
{
    items.reserve(1)?;
    Ok(())
}

// Puts an item behind the others, for which there is room.
pub(crate) fn put_behind<T: Drop>(items: &mut Vec<T>, item: T)
    requires { vec_len items.old < vec_capacity items.old }
    ensures { items.new.items ≡ items.old.items ++ item ∷ [] }
{
    items.push(item).unwrap();
}
