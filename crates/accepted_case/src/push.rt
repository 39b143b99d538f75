ghost use Rattle.std.specs.Prelude.{◌≡◌, ◌++◌, ◌∷◌, [], OnOk};

use fixed_num::Memory;

/// Adds an item.
pub fn push<T: Drop>(item: T, to: &mut Vec<T>) -> Result<(), Memory>
    ensures { OnOk result (to.new.items ≡ to.old.items ++ item ∷ []) }
{
    to.push(item)?;
    Ok(())
}
