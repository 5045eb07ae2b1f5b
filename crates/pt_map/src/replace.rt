//! The unlinking of the tables that blocks of an extent take the place of: no page of it is mapped, but tables may stand
//! where its blocks go.

ghost use Rattle.std.specs.Prelude.{◌≡◌, ◌*◌, false};
ghost use Rattle.pt_tile.specs.Extents as extents;
ghost use Rattle.pt_tile.specs.Extents.{IsFirstTo, tiles, up_to};
ghost use Rattle.pt_view.specs.Views.{Stays};
ghost use Rattle.pt_map.specs.Stands.{IsEntryExtent};
ghost use Rattle.pt_map.specs.Replaced.{HasNoneReplaced, MayMakeWay, MayPutBlock, PutsBlock, UnlinksReplaced};

use crate::entry::under_entry;
use crate::fill::write_entry;
use pt_format::Format;
use pt_sweep::clear_tables;
use pt_tile::Extent;
use pt_view::{Holder, Seen};
use pt_walk::entry_number;

/// Makes way for the blocks of an extent, from the path's last table, of this level, where `tables` stand: else there is
/// none that they take the place of.
#[inline(always)]
pub(crate) fn make_way<F: Format, H: Holder<F>>(
    holder: &mut H,
    level: u32,
    extent: Extent,
    tables: bool,
)
    requires may { MayMakeWay F.layout (H.view holder.old) extent level }
    requires none { tables ≡ false → HasNoneReplaced F.layout (H.view holder.old) (tiles F.layout extent) }
    ensures stays { Stays H.space H.aside H.alone holder.old holder.new }
    ensures unlinks { UnlinksReplaced F.layout H.tells (H.alone holder.old) (tiles F.layout extent) (H.view holder.old) (H.view holder.new) }
{
    if tables {
        unlink_replaced::<F, H>(holder, level, extent);
    }
}

/// Stores the word of an extent's one block, of one entry, in the path's last table, of this level. Where `tables` stand
/// under the entry they are unlinked first.
#[inline(always)]
pub(crate) fn put_entry<F: Format, H: Holder<F>>(
    holder: &mut H,
    level: u32,
    extent: Extent,
    log2: u32,
    tables: bool,
)
    requires way { MayMakeWay F.layout (H.view holder.old) extent level }
    requires none { tables ≡ false → HasNoneReplaced F.layout (H.view holder.old) (tiles F.layout extent) }
    requires may { MayPutBlock F.layout H.tells (H.alone holder.old) (H.view holder.old) extent (extents.block log2 extent) level }
    requires one { log2 ≡ F.layout.index * level }
    ensures stays { Stays H.space H.aside H.alone holder.old holder.new }
    ensures puts { PutsBlock F.layout H.tells (H.alone holder.old) (H.view holder.old) (H.view holder.new) extent (extents.block log2 extent) }
{
    if tables {
        replace_entry::<F, H>(holder, level, extent, log2);
    } else {
        write_entry::<F, H>(holder, level, extent.block(log2));
    }
}

/// The same where tables stand there.
#[inline(never)]
fn replace_entry<F: Format, H: Holder<F>>(holder: &mut H, level: u32, extent: Extent, log2: u32)
    requires way { MayMakeWay F.layout (H.view holder.old) extent level }
    requires may { MayPutBlock F.layout H.tells (H.alone holder.old) (H.view holder.old) extent (extents.block log2 extent) level }
    requires one { log2 ≡ F.layout.index * level }
    ensures stays { Stays H.space H.aside H.alone holder.old holder.new }
    ensures puts { PutsBlock F.layout H.tells (H.alone holder.old) (H.view holder.old) (H.view holder.new) extent (extents.block log2 extent) }
{
    unlink_replaced::<F, H>(holder, level, extent);
    write_entry::<F, H>(holder, level, extent.block(log2));
}

/// Unlinks the tables that blocks of an extent take the place of, from the path's last table, of this level. Their frames
/// are in front of the purse, and the path is in the end as it was.
#[cycle(unlink_replaced)]
#[inline(never)]
fn unlink_replaced<F: Format, H: Holder<F>>(holder: &mut H, level: u32, extent: Extent)
    requires { MayMakeWay F.layout (H.view holder.old) extent level }
    ensures stays { Stays H.space H.aside H.alone holder.old holder.new }
    ensures unlinks { UnlinksReplaced F.layout H.tells (H.alone holder.old) (tiles F.layout extent) (H.view holder.old) (H.view holder.new) }
{
    if level == 0 {
        return;
    }
    let mut rest = extent;
    while rest.first < rest.end {
        let to = unlink_first::<F, H>(holder, level, rest);
        rest = rest.from(to);
    }
}

/// The same, for the blocks of the first one's size that come first of an extent, where they stand in the path's last
/// table, and else for what lies under the entry over its first page. Answers the page up to which it went.
#[cycle(unlink_replaced)]
fn unlink_first<F: Format, H: Holder<F>>(holder: &mut H, level: u32, extent: Extent) -> u64
    requires { MayMakeWay F.layout (H.view holder.old) extent level }
    ensures stays { Stays H.space H.aside H.alone holder.old holder.new }
    ensures to { IsFirstTo F.layout level extent result }
    ensures unlinks { UnlinksReplaced F.layout H.tells (H.alone holder.old) (tiles F.layout (up_to extent result))
        (H.view holder.old) (H.view holder.new) }
{
    let log2 = extent.size_at::<F>(level);
    if log2 >= F::INDEX * level {
        let to = extent.first + (extent.run_under::<F>(level, log2) << log2);
        let levels = holder.levels();
        clear_tables::<F, H>(holder, level, extent.first, to, levels);
        to
    } else {
        let inner = under_entry::<F>(level, extent);
        unlink_under::<F, H>(holder, level, inner);
        inner.end
    }
}

/// The same, for an extent under one entry of the path's last table, whose blocks are those of tables below.
#[cycle(unlink_replaced)]
fn unlink_under<F: Format, H: Holder<F>>(holder: &mut H, level: u32, extent: Extent)
    requires may { MayMakeWay F.layout (H.view holder.old) extent level }
    requires entry { IsEntryExtent F.layout extent level }
    ensures stays { Stays H.space H.aside H.alone holder.old holder.new }
    ensures unlinks { UnlinksReplaced F.layout H.tells (H.alone holder.old) (tiles F.layout extent) (H.view holder.old) (H.view holder.new) }
{
    match holder.enter(entry_number::<F>(level, extent.first)) {
        Seen::Entered => {
            unlink_replaced::<F, H>(holder, level - 1, extent);
            holder.leave();
        }
        _ => {}
    }
}
