//! The format.

ghost use Rattle.std.specs.Prelude.{true, false};
ghost use Rattle.fmt_amdv1.specs.AmdWords.{layout};
ghost use Rattle.fmt_amdv1.specs.AmdLaws as Laws;

use crate::words;
use pt_format::{Format, Prot, Read, WordRun, block_bytes, page_in};

/// Tables of I/O pages of three to six levels.
#[derive(Drop)]
pub struct AmdV1;

impl Format for AmdV1 {
    const GRANULE: u32 = 12;

    const INDEX: u32 = 9;

    const INPUT: u32 = 64;

    const OUTPUT: u32 = 52;

    const START: u32 = 3;

    const LEVELS: u32 = 6;

    const GROWS: bool = true;

    const SIGNED: bool = false;

    ghost GRANULE = { 12 };

    ghost INDEX = { 9 };

    ghost INPUT = { 64 };

    ghost OUTPUT = { 52 };

    ghost START = { 3 };

    ghost LEVELS = { 6 };

    ghost GROWS = { true };

    ghost SIGNED = { false };

    ghost layout = { layout };

    ghost has_constants = { Laws.has_constants };

    ghost lawful_layout = { Laws.lawful_layout };

    ghost words_differ = { Laws.words_differ };

    ghost steps_agree = { Laws.steps_agree };

    ghost is_walk = { Laws.is_walk };

    fn sizes(level: u32) -> u64 {
        if level < 3 { 0x1ff << (9 * level) } else { 0 }
    }

    fn leaf_word(level: u32, log2: u32, out: u64, prot: Prot, _part: u64) -> u64 {
        words::leaf_word(level, log2, out, prot)
    }

    // The words of a block of several entries are equal, so a run of them is one block.
    fn word_run(level: u32, log2: u32, _out: u64, _prot: Prot, count: u64) -> WordRun {
        if log2 == 9 * level {
            WordRun {
                blocks: count,
                step: block_bytes(log2),
            }
        } else {
            WordRun { blocks: 1, step: 0 }
        }
    }

    fn table_word(level: u32, address: u64) -> u64 {
        words::table_word(level, address)
    }

    fn read_word(level: u32, word: u64) -> Read {
        if word == 0 {
            return Read::Empty;
        }
        if let Some(log2) = words::read_size(level, word) {
            return Read::Leaf {
                log2,
                prot: words::permission_in(word),
            };
        }
        match words::read_pointer(level, word) {
            Some(address) => Read::Table { address },
            None => Read::Alien,
        }
    }

    // A leaf has next level 0 or 7, a pointer one between them.
    fn is_leaf(_level: u32, word: u64) -> bool {
        (words::next_level_in(word) + 1) % 8 <= 1
    }

    fn prot_of(_level: u32, word: u64) -> Prot {
        words::permission_in(word)
    }

    fn address_of(_level: u32, word: u64) -> u64 {
        page_in(word) << 12
    }

    fn out_of(level: u32, word: u64, page: u64) -> u64 {
        let pages = 1 << words::log2_in(level, word);
        let number = page_in(word);
        number - number % pages + page % pages
    }
}
