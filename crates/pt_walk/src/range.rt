//! Ranges of pages: the table over a whole range, and the lowest mapped page of it.

ghost use Rattle.pt_view.specs.Views.{Stays};
ghost use Rattle.std.specs.Prelude.{◌≡◌, ◌+◌, ◌*◌, ◌/◌, ◌^◌, ◌≤◌, ◌<◌, ◌↔◌, IsTrue, min, length};
ghost use Rattle.pt_model.specs.Layout.{input_pages, pages_of_entry, pages_of_table};
ghost use Rattle.pt_walk.specs.declared.range.Under.TheVariants.{Nothing, Tables};
ghost use Rattle.pt_walk.specs.Walks.{Climbs, FindsUnder, IsClear, IsOverRange, OwnsAll, OwnsOver, StaysClear, StopsAt, WentDown};
ghost use Rattle.pt_view.specs.Loads.{ByLoads};

use crate::numbers::{entry_bits, entry_number};
use pt_format::Format;
use pt_view::{Holder, Seen};

/// What stands under the entries of a table over the pages of a range.
#[derive(Clone, Copy, Debug, PartialEq, Eq)]
pub enum Under {
    /// No table and no mapped page.
    Nothing,
    /// Tables, in which no page of the range is mapped.
    Tables,
    /// Mapped pages of the range, of which this is the lowest.
    Mapped { page: u64 },
}

impl Under {
    /// Whether tables stand there, and no page of the range is mapped.
    #[inline(always)]
    pub fn has_tables(self) -> bool
        ensures { IsTrue result ↔ (self ≡ Tables) }
    {
        match self {
            Under::Tables => true,
            _ => false,
        }
    }
}

/// The page after the last one under the entry over a page, in a table of this level; 2^63 where that is
/// more.
pub fn entry_end<F: Format>(level: u32, page: u64) -> u64
    requires a_level { level < F.layout.levels }
    requires a_page { page < input_pages F.layout }
    ensures { result ≡ min ((page / pages_of_entry F.layout level + 1) * pages_of_entry F.layout level) (2 ^ 63) }
{
    let bits = entry_bits::<F>(level);
    ((page >> bits) + 1) << bits
}

/// Whether a range lies under one entry of a table of a level. Where the caller knows that it is `whole`, under one
/// table of level `lowest`, nothing is tested.
#[inline(always)]
fn lies_under<F: Format>(level: u32, lowest: u32, first: u64, end: u64, whole: bool) -> bool
    requires a_level { level < F.layout.levels }
    requires a_page { first < input_pages F.layout }
    requires in_space { end ≤ input_pages F.layout }
    requires lowest { lowest < level }
    requires whole { IsTrue whole → end ≤ (first / pages_of_table F.layout lowest + 1) * pages_of_table F.layout lowest }
    ensures { IsTrue result ↔ (end ≤ (first / pages_of_entry F.layout level + 1) * pages_of_entry F.layout level) }
{
    if whole {
        return true;
    }
    end <= entry_end::<F>(level, first)
}

/// What a way down over a range met at its end, in the path's last table.
#[derive(Clone, Copy, Debug, PartialEq, Eq)]
pub enum Met {
    /// The table of the lowest level asked for, or one in which the range isn't under one entry.
    Table,
    /// An entry over the range that was zero.
    Empty,
    /// An entry over the range with the word of a block.
    Leaf,
}

/// Where a way down over a range ends: the level of the path's last table, and what it met there.
#[derive(Clone, Copy, Debug, PartialEq, Eq)]
pub struct Stop {
    pub level: u32,
    pub met: Met,
}

/// Goes down, from the path's last table, of this level, while the range lies under one of its entries,
/// that names a table, and the level is above `lowest`. Answers where it ends; it ends nowhere else. Where the
/// caller knows that the range is `whole`, under one table of level `lowest`, that isn't tested.
pub fn descend<F: Format, H: Holder<F>>(
    holder: &mut H,
    level: u32,
    lowest: u32,
    first: u64,
    end: u64,
    whole: bool,
) -> Stop
    requires range { IsOverRange F.layout (H.view holder.old) first end level }
    requires lowest { lowest ≤ level }
    requires whole { IsTrue whole → end ≤ (first / pages_of_table F.layout lowest + 1) * pages_of_table F.layout lowest }
    ensures stays { Stays H.space H.aside H.alone holder.old holder.new }
    ensures walked { ByLoads H.tells (H.view holder.old) (H.view holder.new) }
    ensures range { IsOverRange F.layout (H.view holder.new) first end result.level }
    ensures down { WentDown F.layout (H.view holder.old) (H.view holder.new) first level result.level }
    ensures lowest { lowest ≤ result.level }
    ensures stops { StopsAt F.layout (H.view holder.new) first end lowest result.level result.met }
    ensures owned { H.alone holder.old → OwnsOver F.layout (H.view holder.old) first result.level level }
    ensures clear { StaysClear F.layout (H.view holder.old) (H.view holder.new) first end level result.level }
{
    let mut at = level;
    while at > lowest && lies_under::<F>(at, lowest, first, end, whole) {
        match holder.enter(entry_number::<F>(at, first)) {
            Seen::Empty => {
                return Stop {
                    level: at,
                    met: Met::Empty,
                };
            }
            Seen::Leaf(_) => {
                return Stop {
                    level: at,
                    met: Met::Leaf,
                };
            }
            Seen::Entered => at -= 1,
        }
    }
    Stop {
        level: at,
        met: Met::Table,
    }
}

/// Leaves so many tables of the path.
pub fn climb<F: Format, H: Holder<F>>(holder: &mut H, tables: u32)
    requires { tables ≤ length (H.view holder.old).path }
    ensures stays { Stays H.space H.aside H.alone holder.old holder.new }
    ensures left { Climbs (H.view holder.old) tables (H.view holder.new) }
{
    for _left in 0..tables {
        holder.leave();
    }
}

/// What stands under the path's last table, of this level, over a range, where no piece of a higher level has one of
/// its pages.
#[cycle(first_below)]
pub fn first_below<F: Format, H: Holder<F>>(
    holder: &mut H,
    level: u32,
    first: u64,
    end: u64,
) -> Under
    requires range { IsOverRange F.layout (H.view holder.old) first end level }
    requires owns { OwnsAll F.layout (H.view holder.old) }
    ensures stays { Stays H.space H.aside H.alone holder.old holder.new }
    ensures walked { ByLoads H.tells (H.view holder.old) (H.view holder.new) }
    ensures path { (H.view holder.new).path ≡ (H.view holder.old).path }
    ensures under { IsClear F.layout (H.view holder.old) first end level → FindsUnder F.layout (H.view holder.old) first end level result }
{
    let mut at = first;
    let mut tables = false;
    while at < end {
        let next = u64::min(entry_end::<F>(level, at), end);
        match first_at::<F, H>(holder, level, at, next) {
            Under::Nothing => {}
            Under::Tables => tables = true,
            Under::Mapped { page } => return Under::Mapped { page },
        }
        at = next;
    }
    if tables {
        Under::Tables
    } else {
        Under::Nothing
    }
}

/// The same, of a range under one entry of that table.
#[cycle(first_below)]
#[inline(always)]
pub fn first_at<F: Format, H: Holder<F>>(holder: &mut H, level: u32, first: u64, end: u64) -> Under
    requires range { IsOverRange F.layout (H.view holder.old) first end level }
    requires one { end ≤ (first / pages_of_entry F.layout level + 1) * pages_of_entry F.layout level }
    requires owns { OwnsAll F.layout (H.view holder.old) }
    ensures stays { Stays H.space H.aside H.alone holder.old holder.new }
    ensures walked { ByLoads H.tells (H.view holder.old) (H.view holder.new) }
    ensures path { (H.view holder.new).path ≡ (H.view holder.old).path }
    ensures under { IsClear F.layout (H.view holder.old) first end level → FindsUnder F.layout (H.view holder.old) first end level result }
{
    match holder.enter(entry_number::<F>(level, first)) {
        Seen::Empty => Under::Nothing,
        Seen::Leaf(_) => Under::Mapped { page: first },
        Seen::Entered => {
            let under = first_below::<F, H>(holder, level - 1, first, end);
            holder.leave();
            match under {
                Under::Mapped { page } => Under::Mapped { page },
                _ => Under::Tables,
            }
        }
    }
}

/// Whether the entries over a range in the path's last table, of this level, are all empty.
#[inline(always)]
fn is_empty_over<F: Format, H: Holder<F>>(holder: &mut H, level: u32, first: u64, end: u64) -> bool
    requires range { IsOverRange F.layout (H.view holder.old) first end level }
    requires owns { OwnsAll F.layout (H.view holder.old) }
    ensures stays { Stays H.space H.aside H.alone holder.old holder.new }
    ensures walked { ByLoads H.tells (H.view holder.old) (H.view holder.new) }
    ensures path { (H.view holder.new).path ≡ (H.view holder.old).path }
    ensures nothing { IsTrue result → IsClear F.layout (H.view holder.old) first end level → FindsUnder F.layout (H.view holder.old) first end level Nothing }
{
    let number = entry_number::<F>(level, first);
    let last = entry_number::<F>(level, end - 1);
    holder.empty_run(number, last - number + 1)
}

/// The same as `first_below`, of a range over which most often nothing stands: its entries are looked at by one call first.
#[inline(always)]
pub fn look_below<F: Format, H: Holder<F>>(
    holder: &mut H,
    level: u32,
    first: u64,
    end: u64,
) -> Under
    requires range { IsOverRange F.layout (H.view holder.old) first end level }
    requires owns { OwnsAll F.layout (H.view holder.old) }
    ensures stays { Stays H.space H.aside H.alone holder.old holder.new }
    ensures walked { ByLoads H.tells (H.view holder.old) (H.view holder.new) }
    ensures path { (H.view holder.new).path ≡ (H.view holder.old).path }
    ensures under { IsClear F.layout (H.view holder.old) first end level → FindsUnder F.layout (H.view holder.old) first end level result }
{
    if is_empty_over::<F, H>(holder, level, first, end) {
        Under::Nothing
    } else {
        first_below::<F, H>(holder, level, first, end)
    }
}
