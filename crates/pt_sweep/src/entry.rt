//! The unmap of a range under one entry, from the table that has it, without a sweep from the root.

ghost use Rattle.std.specs.Prelude.{◌≡◌, ◌⊎◌, ◌↔◌, ◌+◌, ◌*◌, ◌/◌, ◌^◌, ◌<◌, ◌≤◌, IsTrue};
ghost use Rattle.pt_model.specs.declared.block.Block.{Block};
ghost use Rattle.pt_model.specs.Layout as layout;
ghost use Rattle.pt_model.specs.Layout.{input_pages, pages_of_entry};
ghost use Rattle.pt_view.specs.Views.{IsLawfulAtRest, Stays};
ghost use Rattle.pt_walk.specs.RangeWalks.{HasBook, HasSpan, IsBlockOf};
ghost use Rattle.pt_walk.specs.Walks.{IsClear, IsOverRange, Rests};
ghost use Rattle.pt_sweep.specs.Unmaps.{ClearsEntry, UnmapsEntry};

use pt_format::{Block, Format, Span};
use pt_num::is_aligned;
use pt_view::{Holder, Seen};
use pt_walk::{Met, Stop, block_of, climb, descend, entry_bits, entry_number, spine_end};

/// Whether a block begins before a range or ends behind it.
pub(crate) fn reaches_out(block: Block, first: u64, end: u64) -> bool
    requires { layout.end_of block ≤ 2 ^ 52 }
    ensures { IsTrue result ↔ ((block.first < first) ⊎ (end < layout.end_of block)) }
{
    block.first < first || block.first + (1 << block.log2) > end
}

/// Whether this word, in a table of level 0, is the word over a page of a block of one page. It isn't read: the word that
/// such a block has with the same output and permission is made.
#[inline(always)]
fn is_page<F: Format>(word: u64, page: u64) -> bool
    requires some { (b : Block) × IsBlockOf F.layout 0 word page b }
    requires a_page { page < input_pages F.layout }
    ensures { IsTrue result → (b : Block) → IsBlockOf F.layout 0 word page b → b.log2 ≡ 0 }
{
    let out = F::out_of(0, word, page);
    let prot = F::prot_of(0, word);
    F::leaf_word(0, 0, out, prot, 0) == word
}

/// Whether the block of which this word, in a table of this level, is the word over a page has pages outside a range that
/// begins there.
#[inline(never)]
fn is_block_cut<F: Format>(level: u32, word: u64, first: u64, end: u64) -> bool
    requires some { (b : Block) × IsBlockOf F.layout level word first b × (layout.end_of b ≤ 2 ^ 52) }
    requires a_page { first < end }
    requires in_space { end ≤ input_pages F.layout }
    ensures { (b : Block) → IsBlockOf F.layout level word first b → (IsTrue result ↔ ((b.first < first) ⊎ (end < layout.end_of b))) }
{
    reaches_out(block_of::<F>(level, word, first), first, end)
}

/// The same of a range under one entry. Where the level has blocks of one size alone, or a page is met, the word isn't
/// read.
#[inline(always)]
fn is_cut<F: Format>(level: u32, word: u64, first: u64, end: u64) -> bool
    requires some { (b : Block) × IsBlockOf F.layout level word first b × (layout.end_of b ≤ 2 ^ 52) }
    requires a_level { level < F.layout.levels }
    requires a_page { first < end }
    requires in_space { end ≤ input_pages F.layout }
    requires one { end ≤ (first / pages_of_entry F.layout level + 1) * pages_of_entry F.layout level }
    ensures { (b : Block) → IsBlockOf F.layout level word first b → (IsTrue result ↔ ((b.first < first) ⊎ (end < layout.end_of b))) }
{
    let pages = 1 << entry_bits::<F>(level);
    if F::sizes(level) == pages {
        return end - first != pages;
    }
    if level == 0 && is_page::<F>(word, first) {
        return false;
    }
    is_block_cut::<F>(level, word, first, end)
}

/// Clears the one block of a range under one entry of the path's last table, of this level. Answers how many pages went;
/// None where the entry names a table, or is the word of a block that has other pages too: nothing went then.
#[inline(always)]
fn clear_entry<F: Format, H: Holder<F>>(
    holder: &mut H,
    level: u32,
    first: u64,
    end: u64,
) -> Option<u64>
    requires range { IsOverRange F.layout (H.view holder.old) first end level }
    requires one { end ≤ (first / pages_of_entry F.layout level + 1) * pages_of_entry F.layout level }
    requires book { HasBook F.layout (H.view holder.old) }
    requires clear { IsClear F.layout (H.view holder.old) first end level }
    ensures stays { Stays H.space H.aside H.alone holder.old holder.new }
    ensures clears { ClearsEntry F.layout H.tells (H.alone holder.old) first end level (H.view holder.old) (H.view holder.new) result }
{
    let number = entry_number::<F>(level, first);
    match holder.enter(number) {
        Seen::Empty => Some(0),
        Seen::Leaf(word) => {
            if is_cut::<F>(level, word, first, end) {
                return None;
            }
            holder.clear(number);
            Some(end - first)
        }
        Seen::Entered => {
            holder.leave();
            None
        }
    }
}

/// The same where the way down met an entry above the lowest one: it was zero when it was loaded.
#[inline(never)]
fn clear_above<F: Format, H: Holder<F>>(
    holder: &mut H,
    level: u32,
    first: u64,
    end: u64,
) -> Option<u64>
    requires range { IsOverRange F.layout (H.view holder.old) first end level }
    requires one { end ≤ (first / pages_of_entry F.layout level + 1) * pages_of_entry F.layout level }
    requires book { HasBook F.layout (H.view holder.old) }
    requires clear { IsClear F.layout (H.view holder.old) first end level }
    ensures stays { Stays H.space H.aside H.alone holder.old holder.new }
    ensures clears { ClearsEntry F.layout H.tells (H.alone holder.old) first end level (H.view holder.old) (H.view holder.new) result }
{
    clear_entry::<F, H>(holder, level, first, end)
}

/// The same from where the way down to the range ended. A block that it met there has other pages too.
#[inline(always)]
fn clear_from<F: Format, H: Holder<F>>(
    holder: &mut H,
    stop: Stop,
    first: u64,
    end: u64,
) -> Option<u64>
    requires range { IsOverRange F.layout (H.view holder.old) first end stop.level }
    requires one { end ≤ (first / pages_of_entry F.layout stop.level + 1) * pages_of_entry F.layout stop.level }
    requires book { HasBook F.layout (H.view holder.old) }
    requires clear { IsClear F.layout (H.view holder.old) first end stop.level }
    ensures stays { Stays H.space H.aside H.alone holder.old holder.new }
    ensures clears { ClearsEntry F.layout H.tells (H.alone holder.old) first end stop.level (H.view holder.old) (H.view holder.new) result }
{
    match stop.met {
        Met::Table => clear_entry::<F, H>(holder, stop.level, first, end),
        Met::Empty => clear_above::<F, H>(holder, stop.level, first, end),
        Met::Leaf => None,
    }
}

/// Takes a range under one entry of a table of level `lowest` away, where it has one block or none. Answers how many
/// pages went; None where a table is under the entry, or a block has other pages too: nothing went then.
#[inline(always)]
fn unmap_entry<F: Format, H: Holder<F>>(holder: &mut H, range: Span, lowest: u32) -> Option<u64>
    requires rest { Rests F.layout (H.view holder.old) }
    requires span { HasSpan (H.view holder.old) range.first range.count }
    requires some { 0 < range.count }
    requires in_space { range.first + range.count ≤ input_pages F.layout }
    requires levels { F.layout.start ≤ (H.view holder.old).levels }
    requires lawful { IsLawfulAtRest F.layout (H.view holder.old) }
    requires lowest { lowest ≤ 1 }
    requires one { range.first + range.count ≤ (range.first / pages_of_entry F.layout lowest + 1) * pages_of_entry F.layout lowest }
    ensures stays { Stays H.space H.aside H.alone holder.old holder.new }
    ensures unmaps { UnmapsEntry F.layout H.tells (H.alone holder.old) range.first range.count
        (H.view holder.old) (H.view holder.new) result }
{
    let end = range.first + range.count;
    let root = holder.root();
    if end > spine_end::<F>(root) {
        holder.leave();
        return None;
    }
    let stop = descend::<F, H>(holder, root, lowest, range.first, end, true);
    let pages = clear_from::<F, H>(holder, stop, range.first, end);
    climb::<F, H>(holder, root - stop.level + 1);
    pages
}

/// The same of a range of one page, or of all pages under one entry of a table of level 1.
#[inline(always)]
pub(crate) fn unmap_one<F: Format, H: Holder<F>>(holder: &mut H, range: Span) -> Option<u64>
    requires rest { Rests F.layout (H.view holder.old) }
    requires span { HasSpan (H.view holder.old) range.first range.count }
    requires in_space { range.first + range.count ≤ input_pages F.layout }
    requires levels { F.layout.start ≤ (H.view holder.old).levels }
    requires lawful { IsLawfulAtRest F.layout (H.view holder.old) }
    ensures stays { Stays H.space H.aside H.alone holder.old holder.new }
    ensures unmaps { UnmapsEntry F.layout H.tells (H.alone holder.old) range.first range.count
        (H.view holder.old) (H.view holder.new) result }
{
    if range.count == 1 {
        return unmap_entry::<F, H>(holder, range, 0);
    }
    if range.count == 1 << F::INDEX && is_aligned(range.first, F::INDEX) {
        return unmap_entry::<F, H>(holder, range, 1);
    }
    None
}
