//! Blocks: the words of one, compared with what it is to have.

ghost use Rattle.std.specs.Prelude.{◌≡◌, ℕ, ◌+◌, ◌^◌, ◌<◌, ◌≤◌, length, IsTrue, IsFalse, IfNone, IfSome};
ghost use Rattle.pt_format.specs.Words.{IsLeaf, MayBeLeaf};
ghost use Rattle.pt_model.specs.Layout.{level_of_size};
ghost use Rattle.pt_view.specs.Pieces.{words_of};
ghost use Rattle.pt_image.specs.Checks.{AreWords, HasBlock, IsCopied, IsEntryIn, IsHeaderOf, IsTableIn, position_of};
ghost use Rattle.pt_image.specs.Faults.{HasBlockAt};
ghost use Rattle.pt_model.specs.declared.block.Block.{Block};
ghost use Rattle.pt_image.specs.Drafts.{group_words};

use crate::bytes::read_entry;
use crate::header::Header;
use crate::table::{Entry, Table};
use pt_format::{Block, Format, Prot};
use pt_num::is_aligned;
use pt_words::entry_place;

/// Copies the words of a block from its first entry on, as long as the image has them. Whether it has all of them.
fn copy_words<F: Format>(
    image: &[u8],
    header: &Header,
    words: &mut [u64],
    table: Table,
    number: u32,
    block: Block,
) -> bool
    requires header { IsHeaderOf F.layout header.now image.now }
    requires words { AreWords F.layout header.now words.old }
    requires table { IsTableIn F.layout header.now table }
    requires level { level_of_size F.layout block.log2 ≡ table.level }
    requires fits { number + words_of F.layout block ≤ 2 ^ F.layout.index }
    requires leaf { (part : ℕ) → part < words_of F.layout block → MayBeLeaf F.layout table.level block.log2 block.out block.prot part }
    ensures long { length words.new ≡ length words.old }
    ensures copied { IsTrue result → words.new ≡ group_words F.layout header.now.frames words.old table.frame number block (words_of F.layout block) }
    ensures has { IsTrue result → HasBlock F.layout image.now table.frame number block (words_of F.layout block) }
    ensures lacks { IsFalse result → ¬ HasBlock F.layout image.now table.frame number block (words_of F.layout block) }
{
    let Block {
        first: _,
        log2,
        out,
        prot,
    } = block;
    let count = 1u32 << (log2 - F::INDEX * table.level);
    for part in 0..count {
        let own = F::leaf_word(table.level, log2, out, prot, u64::from(part));
        if read_entry::<F>(image, header.frames, table.frame, number + part) != own {
            return false;
        }
        words[entry_place::<F>(header.frames, table.frame, number + part)] = own;
    }
    true
}

/// Copies the words of the block that begins at an entry, and answers how many they are. None where no legal block begins
/// there, or one of its words isn't in its place.
pub(crate) fn copy_block<F: Format>(
    image: &[u8],
    header: &Header,
    words: &mut [u64],
    table: Table,
    entry: Entry,
    log2: u32,
    prot: Prot,
) -> Option<u32>
    requires header { IsHeaderOf F.layout header.now image.now }
    requires words { AreWords F.layout header.now words.old }
    requires table { IsTableIn F.layout header.now table }
    requires entry { IsEntryIn F.layout header.now image.now table entry }
    requires leaf { IsLeaf F.layout table.level entry.word log2 prot }
    ensures long { length words.new ≡ length words.old }
    ensures copied { IfSome result (λ k. IsCopied F.layout header.now.frames image.now words.old words.new table entry k) }
    ensures lacks { IfNone result ((b : Block) → ¬ HasBlockAt F.layout image.now table.frame (position_of table) entry.number b) }
{
    let pages = 1u64 << log2;
    if entry.first + pages > 1 << (F::INPUT - F::GRANULE) {
        return None;
    }
    if log2 == F::INDEX * table.level {
        words[entry_place::<F>(header.frames, table.frame, entry.number)] = entry.word;
        return Some(1);
    }
    let out = F::out_of(table.level, entry.word, entry.first);
    if !is_aligned(entry.first, log2) || !is_aligned(out, log2) {
        return None;
    }
    if out + pages > 1 << (F::OUTPUT - F::GRANULE) {
        return None;
    }
    let block = Block {
        first: entry.first,
        log2,
        out,
        prot,
    };
    if copy_words::<F>(image, header, words, table, entry.number, block) {
        Some(1 << (log2 - F::INDEX * table.level))
    } else {
        None
    }
}
