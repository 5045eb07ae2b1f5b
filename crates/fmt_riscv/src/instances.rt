//! The format at each number of levels.

ghost use Rattle.std.specs.Prelude.{ℕ, refl, true, false, ◌+◌, ◌*◌};
ghost use Rattle.fmt_riscv.specs.RiscvWords.{AreLevels, three, four, five, layout};
ghost use Rattle.fmt_riscv.specs.RiscvLaws as Laws;

use crate::words;
use pt_format::{Format, Prot, Read, WordRun};

/// Tables of `L` levels: 3 (Sv39), 4 (Sv48) or 5 (Sv57), over the lower half of canonical addresses. No
/// other number of levels is a format.
#[derive(Drop)]
pub struct RiscV<const L: u32>;

/// The numbers of levels that are those of a format.
pub trait Levels: Drop {
    /// How many.
    const COUNT: u32;

    ghost COUNT: { ℕ };

    ghost are_levels: { AreLevels COUNT };
}

impl Levels for RiscV<3> {
    const COUNT: u32 = 3;

    ghost COUNT = { 3 };

    ghost are_levels = { three refl };
}

impl Levels for RiscV<4> {
    const COUNT: u32 = 4;

    ghost COUNT = { 4 };

    ghost are_levels = { four refl };
}

impl Levels for RiscV<5> {
    const COUNT: u32 = 5;

    ghost COUNT = { 5 };

    ghost are_levels = { five refl };
}

impl<const L: u32> Format for RiscV<L>
where
    RiscV<L>: Levels,
{
    const GRANULE: u32 = 12;

    const INDEX: u32 = 9;

    const INPUT: u32 = 11 + 9 * <RiscV<L> as Levels>::COUNT;

    const OUTPUT: u32 = 56;

    const START: u32 = <RiscV<L> as Levels>::COUNT;

    const LEVELS: u32 = <RiscV<L> as Levels>::COUNT;

    const GROWS: bool = false;

    const SIGNED: bool = false;

    ghost GRANULE = { 12 };

    ghost INDEX = { 9 };

    ghost INPUT = { 11 + 9 * ⟦<RiscV<L> as Levels>⟧.COUNT };

    ghost OUTPUT = { 56 };

    ghost START = { ⟦<RiscV<L> as Levels>⟧.COUNT };

    ghost LEVELS = { ⟦<RiscV<L> as Levels>⟧.COUNT };

    ghost GROWS = { false };

    ghost SIGNED = { false };

    ghost layout = { layout ⟦<RiscV<L> as Levels>⟧.COUNT };

    ghost has_constants = { Laws.has_constants ⟦<RiscV<L> as Levels>⟧.COUNT };

    ghost lawful_layout = { Laws.lawful_layout ⟦<RiscV<L> as Levels>⟧.COUNT ⟦<RiscV<L> as Levels>⟧.are_levels };

    ghost words_differ = { Laws.words_differ ⟦<RiscV<L> as Levels>⟧.COUNT ⟦<RiscV<L> as Levels>⟧.are_levels };

    ghost steps_agree = { Laws.steps_agree ⟦<RiscV<L> as Levels>⟧.COUNT ⟦<RiscV<L> as Levels>⟧.are_levels };

    ghost is_walk = { Laws.is_walk ⟦<RiscV<L> as Levels>⟧.COUNT ⟦<RiscV<L> as Levels>⟧.are_levels };

    fn sizes(level: u32) -> u64 {
        if level == 0 {
            0x11
        } else {
            words::entry_pages(level)
        }
    }

    fn leaf_word(_level: u32, log2: u32, out: u64, prot: Prot, _part: u64) -> u64 {
        if log2 == 4 {
            words::sixteen_word(out, prot)
        } else {
            words::single_word(out, prot)
        }
    }

    // The words of sixteen pages are equal, so a run of them is one block.
    fn word_run(_level: u32, log2: u32, _out: u64, _prot: Prot, count: u64) -> WordRun {
        if log2 == 4 {
            WordRun { blocks: 1, step: 0 }
        } else {
            WordRun {
                blocks: count,
                step: words::step(log2),
            }
        }
    }

    fn table_word(_level: u32, address: u64) -> u64 {
        words::table_word(address)
    }

    fn read_word(level: u32, word: u64) -> Read {
        if word == 0 {
            return Read::Empty;
        }
        if let Some(prot) = words::read_single(level, word) {
            return Read::Leaf {
                log2: 9 * level,
                prot,
            };
        }
        if level == 0 {
            return match words::read_sixteen(word) {
                Some(prot) => Read::Leaf { log2: 4, prot },
                None => Read::Alien,
            };
        }
        match words::read_pointer(level, word) {
            Some(address) => Read::Table { address },
            None => Read::Alien,
        }
    }

    fn is_leaf(_level: u32, word: u64) -> bool {
        words::has_read(word)
    }

    fn prot_of(_level: u32, word: u64) -> Prot {
        words::permission_in(word)
    }

    fn address_of(_level: u32, word: u64) -> u64 {
        words::number_in(word) << 12
    }

    fn out_of(level: u32, word: u64, page: u64) -> u64 {
        let number = words::number_in(word);
        if words::is_of_sixteen(word) {
            number - 8 + page % 16
        } else {
            number + page % words::entry_pages(level)
        }
    }
}
