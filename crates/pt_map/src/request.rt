//! The map of a range.

ghost use Rattle.std.specs.Prelude.{◌≡◌, ◌+◌, ◌*◌, ◌/◌, ◌^◌, ◌<◌, ◌≤◌, false, None, IsTrue, IfOk, IfErr, length};
ghost use Rattle.pt_model.specs.Book.{map_refusal};
ghost use Rattle.pt_model.specs.Layout.{input_pages};
ghost use Rattle.pt_model.specs.Pages.{byte_at};
ghost use Rattle.pt_tile.specs.Extents as extents;
ghost use Rattle.pt_tile.specs.Extents.{LiesUnderEntry};
ghost use Rattle.pt_view.specs.Views.{Stays, linked_count};
ghost use Rattle.pt_walk.specs.declared.range.Met.TheVariants.{Leaf};
ghost use Rattle.pt_walk.specs.Walks.{Climbs, IsLowest, Rests};
ghost use Rattle.pt_map.specs.declared.refused.MapRefused.TheVariants.{Occupied};
ghost use Rattle.pt_map.specs.Answers.{Accounts, Answers, extent_at};
ghost use Rattle.pt_map.specs.Stands.{IsBlockOf, IsEntryExtent, IsRunOf};
ghost use Rattle.pt_map.specs.Requests.{EndsAbove, EndsBelow, Gathers, IsRefusedByNumbers, IsRequested, MayMap, MayMapBelow, occupied};

use crate::beyond::map_beyond;
use crate::entry::is_under_one;
use crate::fill::{fill_by, fill_run};
use crate::refused::MapRefused;
use crate::replace::{make_way, put_entry};
use crate::survey::{Found, survey_by};
use pt_format::{Format, Prot, Span, byte_of, is_whole, range_of};
use pt_sweep::draw;
use pt_tile::Extent;
use pt_view::Holder;
use pt_walk::{Met, Stop, Under, climb, descend, first_at, look_below, spine_end};

/// The extent that a request is, where its range may be mapped in a span by its numbers alone.
fn extent_in<F: Format>(
    span: Span,
    va: u64,
    pa: u64,
    len: u64,
    prot: Prot,
) -> Result<Extent, MapRefused>
    requires within { span.first + span.count ≤ input_pages F.layout }
    requires stated { IsTrue (F.layout.states prot) }
    ensures asked { IfOk result (λ x. IsRequested F.layout span.first span.count va pa len prot x) }
    ensures refused { IfErr result (λ e. IsRefusedByNumbers F.layout span.first span.count va pa len e) }
{
    if !is_whole::<F>(va) || !is_whole::<F>(pa) || !is_whole::<F>(len) || len == 0 {
        return Err(MapRefused::Misaligned);
    }
    let Some(range) = range_of::<F>(va, len) else {
        return Err(MapRefused::OutsideLease)
    };
    let end = range.first + range.count;
    if range.first < span.first || end > span.first + span.count {
        return Err(MapRefused::OutsideLease);
    }
    let out = pa >> F::GRANULE;
    if out + range.count > 1 << (F::OUTPUT - F::GRANULE) {
        return Err(MapRefused::OutputRange);
    }
    Ok(Extent {
        first: range.first,
        end,
        out,
        prot,
    })
}

/// Draws the frames that a purse lacks for so many absent tables.
pub(crate) fn gather<F: Format, H: Holder<F>>(holder: &mut H, absent: u64) -> Result<(), MapRefused>
    requires { (H.view holder.old).prepared ≡ None }
    ensures stays { Stays H.space H.aside H.alone holder.old holder.new }
    ensures gathers { Gathers H.tells (H.alone holder.old) (linked_count (H.view holder.old) (H.aside holder.old))
        (H.view holder.old) (H.view holder.new) absent result }
{
    let held = u64::from(holder.purse());
    if absent <= held {
        return Ok(());
    }
    if absent <= u64::from(holder.frames()) {
        draw::<F, H>(holder, (absent - held) as u32);
    }
    let held = holder.purse();
    if absent > u64::from(held) {
        Err(MapRefused::NoFrames { absent, held })
    } else {
        Ok(())
    }
}

/// Maps an extent of any blocks from the path's last table, of this level, or refuses it. Where the caller knows that the
/// extent is under `one` entry, and the level is 1, no loop is made over its parts.
#[inline(always)]
fn map_by<F: Format, H: Holder<F>>(
    holder: &mut H,
    level: u32,
    extent: Extent,
    one: bool,
) -> Result<(), MapRefused>
    requires may { MayMapBelow F.layout (H.view holder.old) extent level }
    requires one { IsTrue one → (level ≡ 1) × IsEntryExtent F.layout extent level }
    ensures stays { Stays H.space H.aside H.alone holder.old holder.new }
    ensures ends { EndsBelow F.layout H.tells (H.alone holder.old) (linked_count (H.view holder.old) (H.aside holder.old))
        (H.view holder.old) (H.view holder.new) extent level result }
{
    let cap = u64::from(holder.frames()) + 1;
    match survey_by::<F, H>(holder, level, extent, cap, one) {
        Found::Mapped { page } => Err(MapRefused::Occupied {
            address: byte_of::<F>(page),
        }),
        Found::Absent { count, tables } => {
            gather::<F, H>(holder, count)?;
            make_way::<F, H>(holder, level, extent, tables);
            fill_by::<F, H>(holder, level, extent, one);
            Ok(())
        }
    }
}

/// The same of any extent.
#[inline(never)]
fn map_below<F: Format, H: Holder<F>>(
    holder: &mut H,
    level: u32,
    extent: Extent,
) -> Result<(), MapRefused>
    requires { MayMapBelow F.layout (H.view holder.old) extent level }
    ensures stays { Stays H.space H.aside H.alone holder.old holder.new }
    ensures ends { EndsBelow F.layout H.tells (H.alone holder.old) (linked_count (H.view holder.old) (H.aside holder.old))
        (H.view holder.old) (H.view holder.new) extent level result }
{
    map_by::<F, H>(holder, level, extent, false)
}

/// The same, for an extent that is a run of so many equal blocks of that table: it needs no further table.
#[inline(always)]
fn map_run<F: Format, H: Holder<F>>(
    holder: &mut H,
    level: u32,
    extent: Extent,
    log2: u32,
    count: u64,
) -> Result<(), MapRefused>
    requires may { MayMapBelow F.layout (H.view holder.old) extent level }
    requires run { IsRunOf F.layout extent log2 level count }
    ensures stays { Stays H.space H.aside H.alone holder.old holder.new }
    ensures ends { EndsBelow F.layout H.tells (H.alone holder.old) (linked_count (H.view holder.old) (H.aside holder.old))
        (H.view holder.old) (H.view holder.new) extent level result }
{
    let under = look_below::<F, H>(holder, level, extent.first, extent.end);
    if let Under::Mapped { page } = under {
        return Err(MapRefused::Occupied {
            address: byte_of::<F>(page),
        });
    }
    // what the purse tells of the account of frames is part of the answer
    let _held = holder.purse();
    make_way::<F, H>(holder, level, extent, under.has_tables());
    fill_run::<F, H>(holder, level, extent, log2, count);
    Ok(())
}

/// The same, for an extent whose first block is one of that table, of `2^log2` pages.
#[inline(always)]
fn map_level<F: Format, H: Holder<F>>(
    holder: &mut H,
    level: u32,
    extent: Extent,
    log2: u32,
) -> Result<(), MapRefused>
    requires may { MayMapBelow F.layout (H.view holder.old) extent level }
    requires size { log2 ≡ extents.first_size F.layout extent }
    requires small { log2 < 64 }
    requires high { F.layout.index * level ≤ log2 }
    ensures stays { Stays H.space H.aside H.alone holder.old holder.new }
    ensures ends { EndsBelow F.layout H.tells (H.alone holder.old) (linked_count (H.view holder.old) (H.aside holder.old))
        (H.view holder.old) (H.view holder.new) extent level result }
{
    let count = extent.run_under::<F>(level, log2);
    if extent.end - extent.first == count << log2 {
        map_run::<F, H>(holder, level, extent, log2, count)
    } else {
        map_below::<F, H>(holder, level, extent)
    }
}

/// The same, for an extent that is one block of several entries of that table.
#[inline(never)]
fn map_entries<F: Format, H: Holder<F>>(
    holder: &mut H,
    level: u32,
    extent: Extent,
    log2: u32,
) -> Result<(), MapRefused>
    requires may { MayMapBelow F.layout (H.view holder.old) extent level }
    requires block { IsBlockOf F.layout extent log2 level }
    ensures stays { Stays H.space H.aside H.alone holder.old holder.new }
    ensures ends { EndsBelow F.layout H.tells (H.alone holder.old) (linked_count (H.view holder.old) (H.aside holder.old))
        (H.view holder.old) (H.view holder.new) extent level result }
{
    map_run::<F, H>(holder, level, extent, log2, 1)
}

/// The same, for an extent that is one block of one entry of that table.
#[inline(always)]
fn map_entry<F: Format, H: Holder<F>>(
    holder: &mut H,
    level: u32,
    extent: Extent,
    log2: u32,
) -> Result<(), MapRefused>
    requires may { MayMapBelow F.layout (H.view holder.old) extent level }
    requires block { IsBlockOf F.layout extent log2 level }
    requires one { log2 ≡ F.layout.index * level }
    ensures stays { Stays H.space H.aside H.alone holder.old holder.new }
    ensures ends { EndsBelow F.layout H.tells (H.alone holder.old) (linked_count (H.view holder.old) (H.aside holder.old))
        (H.view holder.old) (H.view holder.new) extent level result }
{
    let under = first_at::<F, H>(holder, level, extent.first, extent.end);
    if let Under::Mapped { page } = under {
        return Err(MapRefused::Occupied {
            address: byte_of::<F>(page),
        });
    }
    // what the purse tells of the account of frames is part of the answer
    let _held = holder.purse();
    put_entry::<F, H>(holder, level, extent, log2, under.has_tables());
    Ok(())
}

/// The same, for an extent that is one block of that table: it needs no further table.
#[inline(always)]
fn map_block<F: Format, H: Holder<F>>(
    holder: &mut H,
    level: u32,
    extent: Extent,
    log2: u32,
) -> Result<(), MapRefused>
    requires may { MayMapBelow F.layout (H.view holder.old) extent level }
    requires block { IsBlockOf F.layout extent log2 level }
    ensures stays { Stays H.space H.aside H.alone holder.old holder.new }
    ensures ends { EndsBelow F.layout H.tells (H.alone holder.old) (linked_count (H.view holder.old) (H.aside holder.old))
        (H.view holder.old) (H.view holder.new) extent level result }
{
    if log2 == F::INDEX * level {
        // where the size is a constant, so is the level then
        map_entry::<F, H>(holder, log2 / F::INDEX, extent, log2)
    } else {
        map_entries::<F, H>(holder, level, extent, log2)
    }
}

/// Maps an extent from the path's last table, of this level, or refuses it. `log2` is the size of its first block.
#[inline(always)]
fn map_at<F: Format, H: Holder<F>>(
    holder: &mut H,
    level: u32,
    extent: Extent,
    log2: u32,
) -> Result<(), MapRefused>
    requires may { MayMapBelow F.layout (H.view holder.old) extent level }
    requires size { log2 ≡ extents.first_size F.layout extent }
    requires small { log2 < 64 }
    ensures stays { Stays H.space H.aside H.alone holder.old holder.new }
    ensures ends { EndsBelow F.layout H.tells (H.alone holder.old) (linked_count (H.view holder.old) (H.aside holder.old))
        (H.view holder.old) (H.view holder.new) extent level result }
{
    if log2 < F::INDEX * level {
        map_below::<F, H>(holder, level, extent)
    } else if extent.end - extent.first == 1 << log2 {
        map_block::<F, H>(holder, level, extent, log2)
    } else {
        map_level::<F, H>(holder, level, extent, log2)
    }
}

/// The same where a table is absent: most often it is the one over all of the extent, of level 0.
#[inline(always)]
fn map_lacking<F: Format, H: Holder<F>>(
    holder: &mut H,
    level: u32,
    extent: Extent,
) -> Result<(), MapRefused>
    requires { MayMapBelow F.layout (H.view holder.old) extent level }
    ensures stays { Stays H.space H.aside H.alone holder.old holder.new }
    ensures ends { EndsBelow F.layout H.tells (H.alone holder.old) (linked_count (H.view holder.old) (H.aside holder.old))
        (H.view holder.old) (H.view holder.new) extent level result }
{
    if level == 1 && is_under_one::<F>(level, extent) {
        return map_by::<F, H>(holder, level, extent, true);
    }
    map_below::<F, H>(holder, level, extent)
}

/// The same, and so many tables are left then.
#[inline(never)]
fn map_absent<F: Format, H: Holder<F>>(
    holder: &mut H,
    level: u32,
    extent: Extent,
    tables: u32,
) -> Result<(), MapRefused>
    requires may { MayMapBelow F.layout (H.view holder.old) extent level }
    requires tables { tables ≤ length (H.view holder.old).path }
    ensures stays { Stays H.space H.aside H.alone holder.old holder.new }
    ensures ends { EndsAbove F.layout H.tells (H.alone holder.old) (linked_count (H.view holder.old) (H.aside holder.old))
        (H.view holder.old) (H.view holder.new) extent level tables result }
{
    let mapped = map_lacking::<F, H>(holder, level, extent);
    climb::<F, H>(holder, tables);
    mapped
}

/// Leaves so many tables: a page of the extent is mapped, this one first.
#[inline(never)]
fn leave_occupied<F: Format, H: Holder<F>>(holder: &mut H, page: u64, tables: u32) -> MapRefused
    requires page { page < input_pages F.layout }
    requires tables { tables ≤ length (H.view holder.old).path }
    ensures stays { Stays H.space H.aside H.alone holder.old holder.new }
    ensures left { Climbs (H.view holder.old) tables (H.view holder.new) }
    ensures at { result ≡ Occupied (byte_at F.layout page) }
{
    climb::<F, H>(holder, tables);
    MapRefused::Occupied {
        address: byte_of::<F>(page),
    }
}

/// The same from where the way down to the extent ended: a block that it met there maps the first page.
#[inline(always)]
fn map_from<F: Format, H: Holder<F>>(
    holder: &mut H,
    stop: Stop,
    extent: Extent,
    log2: u32,
    tables: u32,
) -> Result<(), MapRefused>
    requires may { MayMapBelow F.layout (H.view holder.old) extent stop.level }
    requires leaf { stop.met ≡ Leaf → IsLowest F.layout (H.view holder.old) extent.first extent.end extent.first }
    requires size { log2 ≡ extents.first_size F.layout extent }
    requires small { log2 < 64 }
    requires tables { tables ≤ length (H.view holder.old).path }
    ensures stays { Stays H.space H.aside H.alone holder.old holder.new }
    ensures ends { EndsAbove F.layout H.tells (H.alone holder.old) (linked_count (H.view holder.old) (H.aside holder.old))
        (H.view holder.old) (H.view holder.new) extent stop.level tables result }
{
    match stop.met {
        Met::Table => {
            let mapped = map_at::<F, H>(holder, stop.level, extent, log2);
            climb::<F, H>(holder, tables);
            mapped
        }
        Met::Empty => map_absent::<F, H>(holder, stop.level, extent, tables),
        Met::Leaf => Err(leave_occupied::<F, H>(holder, extent.first, tables)),
    }
}

/// Maps an extent of the span. `log2` is the size of its first block, which stands in a table of level `lowest`; a `whole`
/// extent lies under one such table.
#[inline(always)]
fn map_extent<F: Format, H: Holder<F>>(
    holder: &mut H,
    extent: Extent,
    lowest: u32,
    log2: u32,
    whole: bool,
) -> Result<(), MapRefused>
    requires may { MayMap F.layout (H.view holder.old) extent }
    requires size { log2 ≡ extents.first_size F.layout extent }
    requires lowest { lowest ≡ log2 / F.layout.index }
    requires whole { IsTrue whole → LiesUnderEntry F.layout extent (lowest + 1) }
    ensures stays { Stays H.space H.aside H.alone holder.old holder.new }
    ensures rests { Rests F.layout (H.view holder.new) }
    ensures answered { Answers F.layout H.tells (H.view holder.old) (H.view holder.new) (occupied F.layout extent) extent result }
    ensures accounted { H.alone holder.old → Accounts F.layout (H.view holder.old) (H.view holder.new) (H.aside holder.old) extent result }
{
    let root = holder.root();
    if F::GROWS && extent.end > spine_end::<F>(root) {
        let mapped = map_beyond::<F, H>(holder, root, extent);
        climb::<F, H>(holder, 1);
        return mapped;
    }
    let stop = descend::<F, H>(holder, root, lowest, extent.first, extent.end, whole);
    map_from::<F, H>(holder, stop, extent, log2, root - stop.level + 1)
}

/// Maps the `len` bytes from input address `va` onto those from output address `pa`. The book gets the blocks
/// of the one tiling of the range and the tables that they need, which are linked where they are absent. Tables in which
/// no page is mapped may stand where blocks go: they are unlinked first, and their frames are in the purse.
///
/// Refused, in this order: `Misaligned` where one of the three numbers isn't of whole pages or the length is 0,
/// `OutsideLease` where the input range isn't inside the span, `OutputRange` where the output range ends past
/// the format's output addresses, `Occupied` where the book maps a page of the range, and `NoFrames` where more
/// needed tables are absent than the purse has frames after a draw. After a refusal the book is as before.
///
/// A lost install is no refusal: the call goes on in the table that another holder linked.
pub fn map<F: Format, H: Holder<F>>(
    holder: &mut H,
    va: u64,
    pa: u64,
    len: u64,
    prot: Prot,
) -> Result<(), MapRefused>
    requires rest { Rests F.layout (H.view holder.old) }
    requires stated { IsTrue (F.layout.states prot) }
    ensures stays { Stays H.space H.aside H.alone holder.old holder.new }
    ensures rests { Rests F.layout (H.view holder.new) }
    ensures answered { Answers F.layout H.tells (H.view holder.old) (H.view holder.new) (λ book. map_refusal F.layout book va pa len)
        (extent_at F.layout va pa len prot) result }
    ensures accounted { H.alone holder.old →
        Accounts F.layout (H.view holder.old) (H.view holder.new) (H.aside holder.old) (extent_at F.layout va pa len prot) result }
{
    let extent = extent_in::<F>(holder.range(), va, pa, len, prot)?;
    if extent.is_block::<F>(0) {
        return map_extent::<F, H>(holder, extent, 0, 0, true);
    }
    if extent.is_block::<F>(F::INDEX) {
        return map_extent::<F, H>(holder, extent, 1, F::INDEX, true);
    }
    if is_under_one::<F>(1, extent) {
        let log2 = extent.size_at::<F>(0);
        if log2 == 0 {
            return map_extent::<F, H>(holder, extent, 0, 0, true);
        }
        return map_extent::<F, H>(holder, extent, 0, log2, true);
    }
    let log2 = extent.first_size::<F>();
    if log2 == 0 {
        // pages come first: where the size is a constant, so is the level of their table
        return map_extent::<F, H>(holder, extent, 0, 0, false);
    }
    map_extent::<F, H>(holder, extent, log2 / F::INDEX, log2, false)
}
