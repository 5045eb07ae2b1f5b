//! The trait of formats.

ghost use Rattle.std.specs.Prelude.{◌≡◌, ℕ, ◌<◌, ◌≤◌, IsTrue, Bool};
ghost use Rattle.pt_model.specs.Layout.{Layout, input_pages, output_pages, is_common};
ghost use Rattle.pt_model.specs.declared.block.Prot.{Prot};
ghost use Rattle.pt_format.specs.Words.{HasSizes, MayBeLeaf, MayBeLeaves, GoBy, IsTableAddress, IsTableLevel, IsLeaf, IsPointer, IsWritten};
ghost use Rattle.pt_format.specs.Laws.{HasConstants, IsLayout, WordsDiffer};
ghost use Rattle.pt_format.specs.Reading.{ReadsAs};
ghost use Rattle.pt_format.specs.Manual.{IsOutput, StepsAgree, IsWalk};

use crate::read::Read;
use crate::word_run::WordRun;
use pt_model::Prot;

/// A format of page tables. Its functions make and read words and take no memory. Levels count from 0,
/// the lowest table; a word is named by the level of the table in which it stands. Sizes are `log2` of
/// pages, outputs are pages, and the address of a table is in bytes.
pub trait Format: Drop {
    /// The log2 of the bytes of a page.
    const GRANULE: u32;

    /// The log2 of the entries of a table.
    const INDEX: u32;

    /// The bits of an input address.
    const INPUT: u32;

    /// The bits of an output address.
    const OUTPUT: u32;

    /// The least number of levels that a space starts with.
    const START: u32;

    /// The greatest number of levels of a tree.
    const LEVELS: u32;

    /// Whether a tree may get more levels than it started with.
    const GROWS: bool;

    /// Whether the space is the two halves of canonical addresses.
    const SIGNED: bool;

    ghost GRANULE: { ℕ };

    ghost INDEX: { ℕ };

    ghost INPUT: { ℕ };

    ghost OUTPUT: { ℕ };

    ghost START: { ℕ };

    ghost LEVELS: { ℕ };

    ghost GROWS: { Bool };

    ghost SIGNED: { Bool };

    /// The format as data.
    ghost layout: { Layout };

    /// Whether the format states a permission.
    fn states(prot: Prot) -> bool
        ensures only { IsTrue result → IsTrue (layout.states prot) }
        ensures common { IsTrue (is_common prot) → IsTrue result }
    {
        match prot {
            Prot::Read => true,
            Prot::ReadWrite => true,
        }
    }

    /// In bit `k` whether a block of `2^k` pages is a leaf of a level.
    fn sizes(level: u32) -> u64
        requires { level < layout.levels }
        ensures { HasSizes layout level result };

    /// Word number `part` of a block onto the pages from `out`.
    fn leaf_word(level: u32, log2: u32, out: u64, prot: Prot, part: u64) -> u64
        requires { MayBeLeaf layout level log2 out prot part }
        ensures { result ≡ layout.leaf level log2 out prot part };

    /// How many of `count` equal blocks that follow each other, the first onto the pages from `out`, have words
    /// that go by one step, and that step.
    fn word_run(level: u32, log2: u32, out: u64, prot: Prot, count: u64) -> WordRun
        requires some { 1 ≤ count }
        requires leaves { MayBeLeaves layout level log2 out prot count }
        ensures some { 1 ≤ result.blocks }
        ensures few { result.blocks ≤ count }
        ensures run { GoBy layout level log2 out prot result.blocks result.step };

    /// The pointer to the table at `address`.
    fn table_word(level: u32, address: u64) -> u64
        requires above { IsTableLevel layout level }
        requires a_frame { IsTableAddress layout address }
        ensures { result ≡ layout.pointer level address };

    /// What a word of a table of `level` says.
    fn read_word(level: u32, word: u64) -> Read
        requires { level < layout.levels }
        ensures { ReadsAs layout level word result };

    /// Whether a word that is a leaf or a pointer is a leaf. It reads the kind alone.
    fn is_leaf(level: u32, word: u64) -> bool
        requires below { level < layout.levels }
        requires written { IsWritten layout level word }
        ensures leaf { IsTrue result → (log2 : ℕ) × (prot : Prot) × IsLeaf layout level word log2 prot }
        ensures pointer { ¬ IsTrue result → (address : ℕ) × IsPointer layout level word address };

    /// The permission of a leaf.
    fn prot_of(level: u32, word: u64) -> Prot
        requires a_leaf { (log2 : ℕ) × (prot : Prot) × IsLeaf layout level word log2 prot }
        ensures { (log2 : ℕ) (prot : Prot) → IsLeaf layout level word log2 prot → result ≡ prot };

    /// The address of the table that a pointer names.
    fn address_of(level: u32, word: u64) -> u64
        requires a_pointer { (address : ℕ) × IsPointer layout level word address }
        ensures { (address : ℕ) → IsPointer layout level word address → result ≡ address };

    /// The output page of a page by a leaf, to the manual's step: any page of the space, and any word of a block.
    fn out_of(level: u32, word: u64, page: u64) -> u64
        requires a_leaf { (log2 : ℕ) × (prot : Prot) × IsLeaf layout level word log2 prot }
        requires a_page { page < input_pages layout }
        ensures page { IsOutput layout level word page result }
        ensures within { result < output_pages layout };

    ghost has_constants: { HasConstants layout GRANULE INDEX INPUT OUTPUT START LEVELS GROWS SIGNED };

    ghost lawful_layout: { IsLayout layout };

    ghost words_differ: { WordsDiffer layout };

    ghost steps_agree: { StepsAgree layout };

    ghost is_walk: { IsWalk layout };
}
