ghost use Rattle.std.specs.Prelude.{◌≡◌, [], ◌∷◌, ◌++◌, IfErr, OnOk};

use crate::reader::Stop;
use sqlite_items::Items;

/// Puts an item at the end.
pub fn add<T: Drop>(items: &mut Items<T>, item: T) -> Result<(), Stop>
    ensures ok { OnOk result (items.new ≡ items.old ++ item ∷ []) }
    ensures err { IfErr result (λ stop. stop ≡ Stop.Memory) }
{
    items.push(item).map_err(|_| Stop::Memory)
}
