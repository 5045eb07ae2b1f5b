//! Words worked out from the manual's tables by hand, and a walk over some of them.

ghost use Rattle.std.specs.Prelude.{◌<◌};
ghost use Rattle.pt_model.specs.declared.block.Prot.{Prot};
ghost use Rattle.pt_format.specs.Words.{MayBeLeaf};
ghost use Rattle.fmt_amdv1.specs.AmdWords.{layout};

use crate::AmdV1;
use pt_format::{Format, Prot, Read};
use pt_manual::{Walked, walk_amdv1};
use std::test::Fail;

/// Whether this is the word of a part of a block, and is read back.
fn is_word(level: u32, log2: u32, out: u64, prot: Prot, part: u64, word: u64) -> bool
    requires below { level < 6 }
    requires leaf { MayBeLeaf layout level log2 out prot part }
{
    AmdV1::leaf_word(level, log2, out, prot, part) == word
        && AmdV1::read_word(level, word) == Read::Leaf { log2, prot }
}

#[test]
fn pages_of_what_an_entry_maps(rt: HostRuntime) {
    assert!(rt; is_word(0, 0, 1, Prot::Read, 0, 0x2000_0000_0000_1001));
    assert!(rt; is_word(1, 9, 0x200, Prot::ReadWrite, 0, 0x6000_0000_0020_0001));
    assert!(rt; is_word(2, 18, 0x4_0000, Prot::Read, 0, 0x2000_0000_4000_0001));
}

#[test]
fn pages_of_coded_sizes(rt: HostRuntime) {
    assert!(rt; is_word(0, 1, 2, Prot::Read, 1, 0x2000_0000_0000_2e01));
    assert!(rt; is_word(0, 3, 0x108, Prot::ReadWrite, 7, 0x6000_0000_0010_be01));
    assert!(rt; is_word(0, 8, 0x100, Prot::ReadWrite, 255, 0x6000_0000_0017_fe01));
    assert!(rt; is_word(1, 10, 0x400, Prot::ReadWrite, 1, 0x6000_0000_005f_fe01));
    assert!(rt; is_word(2, 26, 0x400_0000, Prot::Read, 255, 0x2000_005f_ffff_fe01));
}

#[test]
fn words_of_no_form(rt: HostRuntime) {
    assert_eq!(rt; AmdV1::read_word(0, 0), Read::Empty);
    // a size of the level above, one of the level below, a permission to write alone, a page above the third level
    assert_eq!(rt; AmdV1::read_word(0, 0x6000_0000_002f_fe01), Read::Alien);
    assert_eq!(rt; AmdV1::read_word(1, 0x6000_0000_0020_fe01), Read::Alien);
    assert_eq!(rt; AmdV1::read_word(0, 0x4000_0000_0000_1001), Read::Alien);
    assert_eq!(rt; AmdV1::read_word(3, 0x6000_0000_0000_0001), Read::Alien);
}

#[test]
fn pointers(rt: HostRuntime) {
    assert_eq!(rt; AmdV1::table_word(5, 0x1_0000_3000), 0x6000_0001_0000_3a01);
    let table = Read::Table {
        address: 0x1_0000_3000,
    };
    assert_eq!(rt; AmdV1::read_word(5, 0x6000_0001_0000_3a01), table);
    assert_eq!(rt; AmdV1::read_word(4, 0x6000_0001_0000_3a01), Read::Alien);
}

#[test]
fn runs_of_words(rt: HostRuntime) {
    let run = AmdV1::word_run(1, 9, 0x200, Prot::Read, 1);
    assert_eq!(rt; (run.blocks, run.step), (1, 0x20_0000));
    let run = AmdV1::word_run(0, 3, 0x108, Prot::Read, 1);
    assert_eq!(rt; (run.blocks, run.step), (1, 0));
}

#[test]
fn a_walk_over_words_made_by_hand(rt: HostRuntime) -> Result<(), Fail> {
    let mut words = vec![in rt.alloc(); 0; 514]?;
    // the one frame, as the tables of all three levels: entry 2 points down to level 2, entry 1 to level 1, and entries 8
    // to 15 are eight pages
    words[0] = 2;
    words[4] = 0x6000_0001_0000_0401;
    words[3] = 0x6000_0001_0000_0201;
    for number in 8..16usize {
        words[2 + number] = AmdV1::leaf_word(0, 3, 0x108, Prot::ReadWrite, 0);
    }
    let page = Walked::Page {
        out: 0x10_dabc,
        prot: Prot::ReadWrite,
    };
    assert_eq!(rt; walk_amdv1(&words, 0x8020_dabc), page);
    assert_eq!(rt; walk_amdv1(&words, 0x8020_7abc), Walked::None);
    assert_eq!(rt; walk_amdv1(&words, 0x8020_2abc), Walked::Alien { level: 1 });
    assert_eq!(rt; walk_amdv1(&words, 0x80_0000_0000), Walked::None);
    words[0] = 1;
    assert_eq!(rt; walk_amdv1(&words, 0x8020_dabc), Walked::Alien { level: 6 });
    Ok(())
}
