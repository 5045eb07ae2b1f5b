//! The format at each granule.

ghost use Rattle.std.specs.Prelude.{◌≡◌, ℕ, refl, false};
ghost use Rattle.pt_manual.specs.VmsaWalk.{IsGranule, of_4_kib, of_16_kib, of_64_kib, index_bits};
ghost use Rattle.fmt_vmsa.specs.VmsaWords.{layout, levels_of};
ghost use Rattle.fmt_vmsa.specs.VmsaLaws as Laws;
ghost use Rattle.fmt_vmsa.specs.VmsaWalks as Walks;

use crate::words;
use pt_format::{Format, Prot, Read, WordRun};

/// Tables of a granule of `2^G` bytes: 12 (4 KiB), 14 (16 KiB) or 16 (64 KiB). No other granule is a format.
#[derive(Drop)]
pub struct Vmsa<const G: u32>;

/// The granules that are those of a format.
pub trait Granule: Drop {
    /// The log2 of its bytes.
    const LOG2: u32;

    /// The levels of its tables.
    const LEVELS: u32;

    ghost LOG2: { ℕ };

    ghost LEVELS: { ℕ };

    ghost is_granule: { IsGranule LOG2 };

    ghost levels_are: { levels_of LOG2 ≡ LEVELS };
}

impl Granule for Vmsa<12> {
    const LOG2: u32 = 12;

    const LEVELS: u32 = 4;

    ghost LOG2 = { 12 };

    ghost LEVELS = { 4 };

    ghost is_granule = { of_4_kib refl };

    ghost levels_are = { refl };
}

impl Granule for Vmsa<14> {
    const LOG2: u32 = 14;

    const LEVELS: u32 = 4;

    ghost LOG2 = { 14 };

    ghost LEVELS = { 4 };

    ghost is_granule = { of_16_kib refl };

    ghost levels_are = { refl };
}

impl Granule for Vmsa<16> {
    const LOG2: u32 = 16;

    const LEVELS: u32 = 3;

    ghost LOG2 = { 16 };

    ghost LEVELS = { 3 };

    ghost is_granule = { of_64_kib refl };

    ghost levels_are = { refl };
}

impl<const G: u32> Format for Vmsa<G>
where
    Vmsa<G>: Granule,
{
    const GRANULE: u32 = <Vmsa<G> as Granule>::LOG2;

    const INDEX: u32 = <Vmsa<G> as Granule>::LOG2 - 3;

    const INPUT: u32 = 48;

    const OUTPUT: u32 = 48;

    const START: u32 = <Vmsa<G> as Granule>::LEVELS;

    const LEVELS: u32 = <Vmsa<G> as Granule>::LEVELS;

    const GROWS: bool = false;

    const SIGNED: bool = false;

    ghost GRANULE = { ⟦<Vmsa<G> as Granule>⟧.LOG2 };

    ghost INDEX = { index_bits ⟦<Vmsa<G> as Granule>⟧.LOG2 };

    ghost INPUT = { 48 };

    ghost OUTPUT = { 48 };

    ghost START = { ⟦<Vmsa<G> as Granule>⟧.LEVELS };

    ghost LEVELS = { ⟦<Vmsa<G> as Granule>⟧.LEVELS };

    ghost GROWS = { false };

    ghost SIGNED = { false };

    ghost layout = { layout ⟦<Vmsa<G> as Granule>⟧.LOG2 };

    ghost has_constants = { Laws.has_constants ⟦<Vmsa<G> as Granule>⟧.LOG2 ⟦<Vmsa<G> as Granule>⟧.LEVELS ⟦<Vmsa<G> as Granule>⟧.levels_are };

    ghost lawful_layout = { Laws.lawful_layout ⟦<Vmsa<G> as Granule>⟧.is_granule };

    ghost words_differ = { Laws.words_differ ⟦<Vmsa<G> as Granule>⟧.is_granule };

    ghost steps_agree = { Laws.steps_agree ⟦<Vmsa<G> as Granule>⟧.is_granule };

    ghost is_walk = { Walks.is_walk ⟦<Vmsa<G> as Granule>⟧.is_granule };

    fn sizes(level: u32) -> u64 {
        words::sizes(<Vmsa<G> as Granule>::LOG2, level)
    }

    fn leaf_word(level: u32, log2: u32, out: u64, prot: Prot, part: u64) -> u64 {
        let size = words::entry_size(<Vmsa<G> as Granule>::LOG2, level);
        let own = out + (part << size);
        words::entry_word(<Vmsa<G> as Granule>::LOG2, level, own, prot, log2 != size)
    }

    // Each entry has its own address, so all go by one step.
    fn word_run(level: u32, _log2: u32, _out: u64, _prot: Prot, count: u64) -> WordRun {
        WordRun {
            blocks: count,
            step: words::entry_bytes(<Vmsa<G> as Granule>::LOG2, level),
        }
    }

    fn table_word(_level: u32, address: u64) -> u64 {
        words::table_word(address)
    }

    fn read_word(level: u32, word: u64) -> Read {
        if word == 0 {
            return Read::Empty;
        }
        if let Some(prot) = words::read_entry(<Vmsa<G> as Granule>::LOG2, level, word) {
            return Read::Leaf {
                log2: words::size_in(<Vmsa<G> as Granule>::LOG2, level, word),
                prot,
            };
        }
        match words::read_pointer(<Vmsa<G> as Granule>::LOG2, level, word) {
            Some(address) => Read::Table { address },
            None => Read::Alien,
        }
    }

    fn is_leaf(level: u32, word: u64) -> bool {
        level == 0 || !words::has_table(word)
    }

    fn prot_of(_level: u32, word: u64) -> Prot {
        words::permission_in(word)
    }

    fn address_of(_level: u32, word: u64) -> u64 {
        words::page_in(<Vmsa<G> as Granule>::LOG2, word) << <Vmsa<G> as Granule>::LOG2
    }

    fn out_of(level: u32, word: u64, page: u64) -> u64 {
        let own = words::page_in(<Vmsa<G> as Granule>::LOG2, word);
        own + page % words::entry_pages(<Vmsa<G> as Granule>::LOG2, level)
    }
}
