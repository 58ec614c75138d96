//! Fronts of items, in the place of these.

ghost use Rattle.std.specs.Prelude.{◌≡◌, OnOk};
ghost use Rattle.pc_pareto.specs.Items.{IsFrontOf, is_past};

use crate::front_item::FrontItem;
use pc_base::NoMemory;

/// Leaves of the items their front. Want of memory may leave them in another order.
pub(crate) fn keep_front(items: &mut Vec<FrontItem>) -> Result<(), NoMemory>
    ensures { OnOk result (IsFrontOf items.old.items items.new.items) }
{
    items.sort_by_key(|item| (item.first, item.second, item.back.rank))?;
    // Of items in order, one stays where its second cost is below that of the last one that stays.
    items.dedup_by(|item, kept| is_past(item, kept));
    Ok(())
}

/// Whether the second cost of an item isn't below that of another.
fn is_past(item: &FrontItem, kept: &FrontItem) -> bool
    ensures { result ≡ is_past item.now kept.now }
{
    item.second >= kept.second
}
