//! The family of formats with tables of 512 entries over pages of 4 KiB. In the lowest table an entry maps
//! 4 KiB, one level up 2 MiB, two levels up 1 GiB, each by one word.

ghost use Rattle.std.specs.Prelude.{◌≡◌, ℕ, ◌+◌, ◌*◌, ◌/◌, ◌%◌, ◌^◌, ◌<◌, ◌≤◌, List, true, false};
ghost use Rattle.pt_model.specs.Layout.{Reached};
ghost use Rattle.pt_format.specs.FourKib.{AreTables, layout, tables};
ghost use Rattle.pt_format.specs.FourKibLaws as Laws;

use crate::entry_bits::{self, EntryBits};
use crate::{Format, Read, WordRun};
use pt_model::Prot;
use std::marker::PhantomData;

/// The entries of a manual in tables of `L` levels, from 3 to 5.
pub trait FourKibTables<const L: u32>: EntryBits {
    /// The bits of an input address.
    const INPUT: u32;

    ghost INPUT: { ℕ };

    /// The manual's walk.
    ghost walk: { List ℕ → (address : ℕ) → Reached };

    ghost are_tables: { AreTables (tables Self.entries L INPUT walk) };
}

/// The format of the family with the entries `E` in tables of `L` levels.
#[derive(Drop)]
pub struct FourKib<E, const L: u32> {
    of_entries: PhantomData<E>,
}

impl<E: FourKibTables<L>, const L: u32> Format for FourKib<E, L> {
    const GRANULE: u32 = 12;

    const INDEX: u32 = 9;

    const INPUT: u32 = E::INPUT;

    const OUTPUT: u32 = 52;

    const START: u32 = L;

    const LEVELS: u32 = L;

    const GROWS: bool = false;

    const SIGNED: bool = false;

    ghost GRANULE = { 12 };

    ghost INDEX = { 9 };

    ghost INPUT = { E.INPUT };

    ghost OUTPUT = { 52 };

    ghost START = { L };

    ghost LEVELS = { L };

    ghost GROWS = { false };

    ghost SIGNED = { false };

    ghost layout = { layout (tables E.entries L E.INPUT E.walk) };

    ghost has_constants = { Laws.has_constants (tables E.entries L E.INPUT E.walk) };

    ghost lawful_layout = { Laws.lawful_layout E.are_tables };

    ghost words_differ = { Laws.words_differ E.are_tables };

    ghost steps_agree = { Laws.steps_agree E.are_tables };

    ghost is_walk = { E.are_tables.is_walk };

    fn sizes(level: u32) -> u64 {
        entry_bits::sizes(level)
    }

    fn leaf_word(level: u32, _log2: u32, out: u64, prot: Prot, _part: u64) -> u64 {
        entry_bits::leaf_word::<E>(level, out, prot)
    }

    fn word_run(_level: u32, log2: u32, _out: u64, _prot: Prot, count: u64) -> WordRun {
        WordRun {
            blocks: count,
            step: entry_bits::block_bytes(log2),
        }
    }

    fn table_word(_level: u32, address: u64) -> u64 {
        entry_bits::table_word::<E>(address)
    }

    fn read_word(level: u32, word: u64) -> Read {
        if word == 0 {
            return Read::Empty;
        }
        if let Some((_, prot)) = entry_bits::read_leaf::<E>(level, word) {
            return Read::Leaf {
                log2: 9 * level,
                prot,
            };
        }
        match entry_bits::read_pointer::<E>(level, word) {
            Some(address) => Read::Table { address },
            None => Read::Alien,
        }
    }

    // Each word of the lowest level, and those with PS.
    fn is_leaf(level: u32, word: u64) -> bool {
        level == 0 || entry_bits::has_page_size::<E>(word)
    }

    fn prot_of(_level: u32, word: u64) -> Prot {
        entry_bits::permission_in::<E>(word)
    }

    fn address_of(_level: u32, word: u64) -> u64 {
        entry_bits::page_in(word) << 12
    }

    fn out_of(level: u32, word: u64, page: u64) -> u64 {
        entry_bits::out_under(level, word, page)
    }
}
