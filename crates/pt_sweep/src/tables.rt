//! The unlinking of tables in a range without blocks, from the path's last table on down.

ghost use Rattle.std.specs.Prelude.{◌≡◌, ◌+◌, ◌*◌, ◌/◌, ◌≤◌};
ghost use Rattle.pt_model.specs.Layout.{pages_of_entry};
ghost use Rattle.pt_view.specs.Views.{Stays};
ghost use Rattle.pt_walk.specs.Walks.{IsOverRange};
ghost use Rattle.pt_sweep.specs.Empties.{UnlinksBelow};
ghost use Rattle.pt_sweep.specs.EmptyRanges.{IsEmptyRange};

use crate::sweep::is_off_spine;
use pt_format::Format;
use pt_view::{Holder, Seen};
use pt_walk::{entry_end, entry_number};

/// Unlinks the tables off the spine that lie in a range under the path's last table, of this level, where no
/// block meets the range.
#[cycle(clear_tables)]
pub fn clear_tables<F: Format, H: Holder<F>>(
    holder: &mut H,
    level: u32,
    first: u64,
    end: u64,
    levels: u32,
)
    requires range { IsOverRange F.layout (H.view holder.old) first end level }
    requires empty { IsEmptyRange F.layout (H.view holder.old) first end levels }
    ensures stays { Stays H.space H.aside H.alone holder.old holder.new }
    ensures unlinks { UnlinksBelow F.layout H.tells (H.alone holder.old) first end level (H.view holder.old) (H.view holder.new) }
{
    if level == 0 {
        return;
    }
    let mut at = first;
    while at < end {
        let next = u64::min(entry_end::<F>(level, at), end);
        clear_table::<F, H>(holder, level, at, next, levels);
        at = next;
    }
}

/// The same of a range under one entry of the path's last table.
#[cycle(clear_tables)]
fn clear_table<F: Format, H: Holder<F>>(
    holder: &mut H,
    level: u32,
    first: u64,
    end: u64,
    levels: u32,
)
    requires range { IsOverRange F.layout (H.view holder.old) first end level }
    requires one { end ≤ (first / pages_of_entry F.layout level + 1) * pages_of_entry F.layout level }
    requires empty { IsEmptyRange F.layout (H.view holder.old) first end levels }
    ensures stays { Stays H.space H.aside H.alone holder.old holder.new }
    ensures unlinks { UnlinksBelow F.layout H.tells (H.alone holder.old) first end level (H.view holder.old) (H.view holder.new) }
{
    let number = entry_number::<F>(level, first);
    match holder.enter(number) {
        Seen::Entered => {
            clear_tables::<F, H>(holder, level - 1, first, end, levels);
            holder.leave();
            if is_off_spine::<F>(level, first, end, levels) {
                holder.unlink(number);
            }
        }
        _ => {}
    }
}
