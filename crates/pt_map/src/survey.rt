//! The look through an extent before anything changes: its lowest mapped page, or the count of the tables that it
//! needs and that are absent.

ghost use Rattle.std.specs.Prelude.{◌≡◌, ◌+◌, ◌*◌, ◌/◌, ◌^◌, ◌<◌, ◌≤◌, ℕ, length, min, IsTrue};
ghost use Rattle.pt_model.specs.declared.position.Position.{Position};
ghost use Rattle.pt_model.specs.Sets.{IsAmong};
ghost use Rattle.pt_tile.specs.Extents.{IsExtent, IsFirstTo, LiesUnderEntry, tables_below, up_to};
ghost use Rattle.pt_view.specs.Views.{Stays};
ghost use Rattle.pt_map.specs.Stands.{IsEntryExtent};
ghost use Rattle.pt_map.specs.Absent.{MaySurvey, Surveyed};

use crate::entry::{is_under_one, under_entry};
use pt_format::Format;
use pt_num::Span;
use pt_tile::{Extent, tables_needed};
use pt_view::{Holder, Seen};
use pt_walk::{Under, entry_number, look_below};

/// How many of the tables below a level that an extent under one entry needs there are, where none is linked
/// under that entry; `cap` where there are more. The entry is one of a table of that level.
fn needed_below<F: Format>(extent: Extent, level: u32, cap: u64) -> u64
    requires extent { IsExtent F.layout extent }
    requires level { level < F.layout.levels }
    requires high { 0 < level }
    requires one { LiesUnderEntry F.layout extent level }
    requires cap { cap ≤ 2 ^ 32 }
    ensures { result ≡ min cap (length (tables_below F.layout extent level)) }
{
    if is_under_one::<F>(1, extent) {
        // under one table of level 0 it needs one of each level
        return u64::min(cap, u64::from(level));
    }
    let span = Span {
        first: extent.first,
        count: extent.end - extent.first,
    };
    // counted as in a tree of all levels, where one table of each level from that one on is over the extent, and the
    // highest isn't counted
    let over = u64::from(F::LEVELS - 1 - level);
    tables_needed::<F>(span, extent.out, F::LEVELS, cap + over) - over
}

/// What a look through an extent found.
#[derive(Clone, Copy, Debug, PartialEq, Eq)]
pub(crate) enum Found {
    /// Its lowest page that is mapped.
    Mapped { page: u64 },
    /// No page of it is mapped, and so many of the tables that it needs below the level are absent; the cap where
    /// there are more. Whether tables may stand where its blocks go.
    Absent { count: u64, tables: bool },
}

/// What was gone through of an extent: the pages before `to`, where this was found.
#[derive(Clone, Copy, Debug, PartialEq, Eq)]
struct Looked {
    to: u64,
    found: Found,
}

/// Looks through an extent that needs no table below the path's last one, of this level.
fn look<F: Format, H: Holder<F>>(holder: &mut H, level: u32, extent: Extent, cap: u64) -> Found
    requires may { MaySurvey F.layout (H.view holder.old) extent level cap }
    requires none { (p : Position) → IsAmong (tables_below F.layout extent level) p → ⊥ }
    ensures stays { Stays H.space H.aside H.alone holder.old holder.new }
    ensures surveyed { Surveyed F.layout H.tells (H.alone holder.old) (H.view holder.old) (H.view holder.new) extent level cap result }
{
    match look_below::<F, H>(holder, level, extent.first, extent.end) {
        Under::Mapped { page } => Found::Mapped { page },
        Under::Tables => Found::Absent {
            count: 0,
            tables: true,
        },
        Under::Nothing => Found::Absent {
            count: 0,
            tables: false,
        },
    }
}

/// Looks through an extent from the path's last table, of this level.
#[cycle(survey)]
pub(crate) fn survey<F: Format, H: Holder<F>>(
    holder: &mut H,
    level: u32,
    extent: Extent,
    cap: u64,
) -> Found
    requires { MaySurvey F.layout (H.view holder.old) extent level cap }
    ensures stays { Stays H.space H.aside H.alone holder.old holder.new }
    ensures surveyed { Surveyed F.layout H.tells (H.alone holder.old) (H.view holder.old) (H.view holder.new) extent level cap result }
{
    if level == 0 {
        return look::<F, H>(holder, level, extent, cap);
    }
    if is_under_one::<F>(level, extent) {
        return survey_under::<F, H>(holder, level, extent, cap);
    }
    let mut rest = extent;
    let mut absent = 0;
    let mut over_tables = false;
    while rest.first < rest.end {
        let looked = survey_first::<F, H>(holder, level, rest, cap);
        match looked.found {
            Found::Mapped { page } => return Found::Mapped { page },
            Found::Absent { count, tables } => {
                absent = u64::min(cap, absent + count);
                over_tables |= tables;
            }
        }
        rest = rest.from(looked.to);
    }
    Found::Absent {
        count: absent,
        tables: over_tables,
    }
}

/// The same. Where the caller knows that the extent is under `one` entry of that table, nothing is tested.
#[inline(always)]
pub(crate) fn survey_by<F: Format, H: Holder<F>>(
    holder: &mut H,
    level: u32,
    extent: Extent,
    cap: u64,
    one: bool,
) -> Found
    requires may { MaySurvey F.layout (H.view holder.old) extent level cap }
    requires one { IsTrue one → IsEntryExtent F.layout extent level }
    ensures stays { Stays H.space H.aside H.alone holder.old holder.new }
    ensures surveyed { Surveyed F.layout H.tells (H.alone holder.old) (H.view holder.old) (H.view holder.new) extent level cap result }
{
    if one {
        survey_under::<F, H>(holder, level, extent, cap)
    } else {
        survey::<F, H>(holder, level, extent, cap)
    }
}

/// The same, for the blocks of the first one's size that come first of an extent, where they stand in the path's
/// last table, and else for what lies under the entry over its first page.
#[cycle(survey)]
fn survey_first<F: Format, H: Holder<F>>(
    holder: &mut H,
    level: u32,
    extent: Extent,
    cap: u64,
) -> Looked
    requires { MaySurvey F.layout (H.view holder.old) extent level cap }
    ensures stays { Stays H.space H.aside H.alone holder.old holder.new }
    ensures to { IsFirstTo F.layout level extent result.to }
    ensures surveyed { Surveyed F.layout H.tells (H.alone holder.old) (H.view holder.old) (H.view holder.new) (up_to extent result.to) level cap
        result.found }
{
    let log2 = extent.size_at::<F>(level);
    if log2 >= F::INDEX * level {
        let to = extent.first + (extent.run_under::<F>(level, log2) << log2);
        return Looked {
            to,
            found: look::<F, H>(holder, level, extent.up_to(to), cap),
        };
    }
    let inner = under_entry::<F>(level, extent);
    Looked {
        to: inner.end,
        found: survey_under::<F, H>(holder, level, inner, cap),
    }
}

/// The same, for an extent under one entry of the path's last table.
#[cycle(survey)]
#[inline(always)]
fn survey_under<F: Format, H: Holder<F>>(
    holder: &mut H,
    level: u32,
    extent: Extent,
    cap: u64,
) -> Found
    requires may { MaySurvey F.layout (H.view holder.old) extent level cap }
    requires entry { IsEntryExtent F.layout extent level }
    ensures stays { Stays H.space H.aside H.alone holder.old holder.new }
    ensures surveyed { Surveyed F.layout H.tells (H.alone holder.old) (H.view holder.old) (H.view holder.new) extent level cap result }
{
    match holder.enter(entry_number::<F>(level, extent.first)) {
        Seen::Empty => Found::Absent {
            count: needed_below::<F>(extent, level, cap),
            tables: false,
        },
        Seen::Leaf(_) => Found::Mapped { page: extent.first },
        Seen::Entered => {
            let found = survey::<F, H>(holder, level - 1, extent, cap);
            holder.leave();
            found
        }
    }
}
