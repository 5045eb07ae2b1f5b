//! The writing of an extent: its tables are linked where they are absent, and its blocks are stored.

ghost use Rattle.std.specs.Prelude.{◌≡◌, ℕ, ◌*◌, ◌<◌, IsTrue, List, [], ◌∷◌, length};
ghost use Rattle.pt_model.specs.declared.position.Position.{Position};
ghost use Rattle.pt_model.specs.Sets.{IsAmong};
ghost use Rattle.pt_format.specs.Words.{GoBy};
ghost use Rattle.pt_tile.specs.Extents.{IsFirstTo, up_to};
ghost use Rattle.pt_view.specs.Views.{Stays};
ghost use Rattle.pt_view.specs.Pieces as pieces;
ghost use Rattle.pt_map.specs.Stands.{IsEntryExtent, IsRunOf};
ghost use Rattle.pt_map.specs.Filled.{Fills, HasRoom, IsDeeper, MayFill, MayGoInto, MayStore, MayStoreRun, Spends, SpendsOn, StoresRun, next_table};

use crate::entry::{is_under_one, under_entry};
use pt_format::{Block, Format, WordRun};
use pt_num::align_down;
use pt_tile::Extent;
use pt_view::{Holder, Seen, Won};
use pt_walk::{entry_bits, entry_number};

/// Writes an extent, from the path's last table, of this level. The path is in the end as it was.
#[cycle(fill)]
pub(crate) fn fill<F: Format, H: Holder<F>>(holder: &mut H, level: u32, extent: Extent)
    requires { MayFill F.layout (H.view holder.old) extent level }
    ensures stays { Stays H.space H.aside H.alone holder.old holder.new }
    ensures fills { Fills F.layout H.tells (H.view holder.old) (H.view holder.new) extent level }
{
    if is_under_one::<F>(level, extent) {
        fill_entry::<F, H>(holder, level, extent);
        return;
    }
    let mut rest = extent;
    while rest.first < rest.end {
        let to = fill_first::<F, H>(holder, level, rest);
        rest = rest.from(to);
    }
}

/// Writes the blocks of the first one's size that come first of an extent, where they stand in the path's last
/// table, and else what lies under the entry over its first page. Answers the page up to which it wrote.
#[cycle(fill)]
fn fill_first<F: Format, H: Holder<F>>(holder: &mut H, level: u32, extent: Extent) -> u64
    requires { MayFill F.layout (H.view holder.old) extent level }
    ensures stays { Stays H.space H.aside H.alone holder.old holder.new }
    ensures to { IsFirstTo F.layout level extent result }
    ensures fills { Fills F.layout H.tells (H.view holder.old) (H.view holder.new) (up_to extent result) level }
{
    let log2 = extent.size_at::<F>(level);
    if log2 >= F::INDEX * level {
        let count = extent.run_under::<F>(level, log2);
        let run = F::word_run(level, log2, extent.out, extent.prot, count);
        write_run::<F, H>(holder, level, extent.block(log2), run);
        extent.first + (run.blocks << log2)
    } else {
        let inner = under_entry::<F>(level, extent);
        fill_entry::<F, H>(holder, level, inner);
        inner.end
    }
}

/// Writes an extent under one entry of the path's last table, whose blocks are those of tables below.
#[cycle(fill)]
fn fill_entry<F: Format, H: Holder<F>>(holder: &mut H, level: u32, extent: Extent)
    requires may { MayFill F.layout (H.view holder.old) extent level }
    requires entry { IsEntryExtent F.layout extent level }
    ensures stays { Stays H.space H.aside H.alone holder.old holder.new }
    ensures fills { Fills F.layout H.tells (H.view holder.old) (H.view holder.new) extent level }
{
    go_into::<F, H>(holder, level, extent.first);
    fill::<F, H>(holder, level - 1, extent);
    holder.leave();
}

/// Writes an extent under `one` entry of the path's last table, which is then of level 1, or any extent from that table.
#[inline(always)]
pub(crate) fn fill_by<F: Format, H: Holder<F>>(
    holder: &mut H,
    level: u32,
    extent: Extent,
    one: bool,
)
    requires may { MayFill F.layout (H.view holder.old) extent level }
    requires one { IsTrue one → (level ≡ 1) × IsEntryExtent F.layout extent level }
    ensures stays { Stays H.space H.aside H.alone holder.old holder.new }
    ensures fills { Fills F.layout H.tells (H.view holder.old) (H.view holder.new) extent level }
{
    if one {
        go_into::<F, H>(holder, level, extent.first);
        fill_lowest::<F, H>(holder, level - 1, extent);
        holder.leave();
    } else {
        fill::<F, H>(holder, level, extent);
    }
}

/// Writes an extent from the path's last table, of this level, by one call where its blocks are equal.
#[inline(always)]
fn fill_lowest<F: Format, H: Holder<F>>(holder: &mut H, level: u32, extent: Extent)
    requires { MayFill F.layout (H.view holder.old) extent level }
    ensures stays { Stays H.space H.aside H.alone holder.old holder.new }
    ensures fills { Fills F.layout H.tells (H.view holder.old) (H.view holder.new) extent level }
{
    let log2 = extent.size_at::<F>(level);
    if log2 >= F::INDEX * level {
        let count = extent.run_under::<F>(level, log2);
        if extent.end - extent.first == count << log2 {
            fill_run::<F, H>(holder, level, extent, log2, count);
            return;
        }
    }
    fill::<F, H>(holder, level, extent);
}

/// Goes into the table under the entry over a page, which is linked there if there is none.
#[inline(always)]
fn go_into<F: Format, H: Holder<F>>(holder: &mut H, level: u32, page: u64)
    requires may { MayGoInto F.layout (H.view holder.old) page level }
    requires room { (lacking : List Position) × HasRoom (H.view holder.old) (next_table F.layout page level ∷ []) lacking }
    ensures stays { Stays H.space H.aside H.alone holder.old holder.new }
    ensures deeper { IsDeeper F.layout H.tells (H.view holder.old) (H.view holder.new) page level }
    ensures spends { SpendsOn (H.view holder.old) (H.view holder.new) (next_table F.layout page level ∷ []) }
{
    let number = entry_number::<F>(level, page);
    match holder.enter(number) {
        Seen::Empty => link::<F, H>(holder, level, number, page),
        Seen::Leaf(_) | Seen::Entered => {}
    }
}

/// Links the first frame of the purse as the table under an entry, or goes into the table that another
/// linked there.
fn link<F: Format, H: Holder<F>>(holder: &mut H, level: u32, number: u32, page: u64)
    requires may { MayGoInto F.layout (H.view holder.old) page level }
    requires number { number ≡ pieces.entry_number F.layout level page }
    requires some { 0 < length (H.view holder.old).purse }
    ensures stays { Stays H.space H.aside H.alone holder.old holder.new }
    ensures deeper { IsDeeper F.layout H.tells (H.view holder.old) (H.view holder.new) page level }
    ensures spends { (lacking : List Position)
        → IsAmong lacking (next_table F.layout page level)
        → (still : List Position) × Spends (H.view holder.old) (H.view holder.new) lacking still }
{
    holder.place(level - 1, align_down(page, entry_bits::<F>(level)));
    match holder.install(number) {
        Won::Yes => {}
        Won::Met => holder.unplace(),
    }
}

/// Writes an extent that is a run of so many equal blocks of the path's last table, of this level: by one call, where
/// their words go by one step.
#[inline(always)]
pub(crate) fn fill_run<F: Format, H: Holder<F>>(
    holder: &mut H,
    level: u32,
    extent: Extent,
    log2: u32,
    count: u64,
)
    requires may { MayStore F.layout (H.view holder.old) extent level }
    requires run { IsRunOf F.layout extent log2 level count }
    ensures stays { Stays H.space H.aside H.alone holder.old holder.new }
    ensures fills { Fills F.layout H.tells (H.view holder.old) (H.view holder.new) extent level }
{
    let run = F::word_run(level, log2, extent.out, extent.prot, count);
    if run.blocks == count {
        write_run::<F, H>(holder, level, extent.block(log2), run);
    } else {
        fill::<F, H>(holder, level, extent);
    }
}

/// Stores the word of a block of one entry in the path's last table, of this level.
#[inline(always)]
pub(crate) fn write_entry<F: Format, H: Holder<F>>(holder: &mut H, level: u32, block: Block)
    requires may { MayStoreRun F.layout (H.view holder.old) 1 block level }
    requires one { block.log2 ≡ F.layout.index * level }
    ensures stays { Stays H.space H.aside H.alone holder.old holder.new }
    ensures stored { StoresRun F.layout H.tells (H.view holder.old) (H.view holder.new) 1 block }
{
    let word = F::leaf_word(level, block.log2, block.out, block.prot, 0);
    holder.write(entry_number::<F>(level, block.first), word);
}

/// Stores the words of so many equal blocks that follow each other in the path's last table, of this level.
/// `block` is the first; the words go by the run's step.
#[inline(always)]
pub(crate) fn write_run<F: Format, H: Holder<F>>(
    holder: &mut H,
    level: u32,
    block: Block,
    run: WordRun,
)
    requires may { MayStoreRun F.layout (H.view holder.old) run.blocks block level }
    requires words { GoBy F.layout level block.log2 block.out block.prot run.blocks run.step }
    ensures stays { Stays H.space H.aside H.alone holder.old holder.new }
    ensures stored { StoresRun F.layout H.tells (H.view holder.old) (H.view holder.new) run.blocks block }
{
    // each block has 2^bits entries
    let bits = block.log2 - F::INDEX * level;
    let word = F::leaf_word(level, block.log2, block.out, block.prot, 0);
    holder.write_run(
        entry_number::<F>(level, block.first),
        (run.blocks << bits) as u32,
        word,
        run.step,
    );
}
