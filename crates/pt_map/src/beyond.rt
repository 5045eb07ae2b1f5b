//! A map past the pages that the root reaches.

ghost use Rattle.std.specs.Prelude.{◌≡◌, ◌+◌, ◌-◌, ◌^◌, ◌<◌, ◌≤◌, length};
ghost use Rattle.pt_model.specs.Layout.{pages_of_table};
ghost use Rattle.pt_model.specs.Tables.{all_needed, least_top};
ghost use Rattle.pt_tile.specs.Extents.{IsExtent, tiles};
ghost use Rattle.pt_view.specs.Views.{Stays, linked_count};
ghost use Rattle.pt_map.specs.Past.{past_root};
ghost use Rattle.pt_map.specs.Replaced.{UnlinksReplaced};
ghost use Rattle.pt_map.specs.Beyond.{EndsBeyond, MayMakeWayNear, MayMapBeyond, SurveyedNear};

use crate::fill::fill;
use crate::refused::MapRefused;
use crate::replace::make_way;
use crate::request::gather;
use crate::survey::{Found, survey};
use pt_format::{Format, byte_of};
use pt_num::Span;
use pt_sweep::raise;
use pt_tile::{Extent, count_tables};
use pt_view::Holder;
use pt_walk::spine_end;

/// How many of the tables that an extent needs end past the pages under the root, which is of a level, in a tree that
/// started with so many levels.
pub(crate) fn count_past<F: Format>(extent: Extent, levels: u32, root: u32) -> u64
    requires extent { IsExtent F.layout extent }
    requires start { F.layout.start ≤ levels }
    requires few { levels ≤ F.layout.levels }
    requires low { levels ≤ root + 1 }
    requires past { pages_of_table F.layout root < extent.end }
    requires root { root < F.layout.levels }
    ensures { result ≡ length (past_root F.layout levels root extent) }
{
    let all = count_all::<F>(extent, levels);
    let reach = spine_end::<F>(root);
    if extent.first < reach {
        all - count_all::<F>(extent.up_to(reach), levels)
    } else {
        all - u64::from(root + 2 - levels)
    }
}

/// How many tables an extent needs.
fn count_all<F: Format>(extent: Extent, levels: u32) -> u64
    requires extent { IsExtent F.layout extent }
    requires start { F.layout.start ≤ levels }
    requires few { levels ≤ F.layout.levels }
    ensures { result ≡ length (all_needed F.layout levels (tiles F.layout extent)) }
{
    let span = Span {
        first: extent.first,
        count: extent.end - extent.first,
    };
    count_tables::<F>(span, extent.out, levels)
}

/// The least level from the root's on whose table at page 0 is over all pages before page `end`.
fn top_over<F: Format>(root: u32, end: u64) -> u32
    requires root { root < F.layout.levels }
    requires within { end ≤ pages_of_table F.layout (F.layout.levels - 1) }
    requires few { end ≤ 2 ^ 52 }
    ensures { result ≡ least_top F.layout (root + 1) end }
{
    let mut top = root;
    while spine_end::<F>(top) < end {
        top += 1;
    }
    top
}

/// Looks through what of an extent lies under the root, the path's table, of this level.
fn survey_near<F: Format, H: Holder<F>>(
    holder: &mut H,
    root: u32,
    extent: Extent,
    cap: u64,
) -> Found
    requires may { MayMapBeyond F.layout (H.view holder.old) extent root }
    requires cap { cap ≤ 2 ^ 32 }
    ensures stays { Stays H.space H.aside H.alone holder.old holder.new }
    ensures surveyed { SurveyedNear F.layout H.tells (H.alone holder.old) (H.view holder.old) (H.view holder.new) extent root cap result }
{
    let reach = spine_end::<F>(root);
    if extent.first < reach {
        survey::<F, H>(holder, root, extent.up_to(reach), cap)
    } else {
        Found::Absent {
            count: 0,
            tables: false,
        }
    }
}

/// Makes way for the blocks of an extent, of which no page is mapped, where `tables` stand under the root.
fn make_way_near<F: Format, H: Holder<F>>(holder: &mut H, root: u32, extent: Extent, tables: bool)
    requires may { MayMakeWayNear F.layout (H.view holder.old) extent root tables }
    ensures stays { Stays H.space H.aside H.alone holder.old holder.new }
    ensures unlinks { UnlinksReplaced F.layout H.tells (H.alone holder.old) (tiles F.layout extent) (H.view holder.old) (H.view holder.new) }
{
    let reach = spine_end::<F>(root);
    if extent.first < reach {
        make_way::<F, H>(holder, root, extent.up_to(reach), tables);
    }
}

/// Maps an extent that ends past the pages under the root, the path's table, or refuses it. The path is in the end the
/// root's table.
#[inline(never)]
pub(crate) fn map_beyond<F: Format, H: Holder<F>>(
    holder: &mut H,
    root: u32,
    extent: Extent,
) -> Result<(), MapRefused>
    requires { MayMapBeyond F.layout (H.view holder.old) extent root }
    ensures stays { Stays H.space H.aside H.alone holder.old holder.new }
    ensures ends { EndsBeyond F.layout H.tells (H.alone holder.old) (linked_count (H.view holder.old) (H.aside holder.old))
        (H.view holder.old) (H.view holder.new) extent root result }
{
    let cap = u64::from(holder.frames()) + 1;
    match survey_near::<F, H>(holder, root, extent, cap) {
        Found::Mapped { page } => Err(MapRefused::Occupied {
            address: byte_of::<F>(page),
        }),
        Found::Absent { count, tables } => {
            let past = count_past::<F>(extent, holder.levels(), root);
            gather::<F, H>(holder, u64::min(cap, count.saturating_add(past)))?;
            make_way_near::<F, H>(holder, root, extent, tables);
            let level = raise::<F, H>(holder, root, top_over::<F>(root, extent.end));
            fill::<F, H>(holder, level, extent);
            Ok(())
        }
    }
}
