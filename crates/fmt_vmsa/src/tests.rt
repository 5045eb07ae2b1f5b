ghost use Rattle.std.specs.Prelude.{◌<◌};
ghost use Rattle.pt_model.specs.declared.block.Prot.{Prot};
ghost use Rattle.pt_format.specs.Words.{MayBeLeaf};

use crate::Vmsa;
use pt_format::{Format, Prot, Read};
use pt_manual::{Walked, walk_vmsa};

/// Whether this is the word of a part of a block, and is read back.
fn is_word<F: Format>(level: u32, log2: u32, out: u64, prot: Prot, part: u64, word: u64) -> bool
    requires below { level < F.layout.levels }
    requires leaf { MayBeLeaf F.layout level log2 out prot part }
{
    F::leaf_word(level, log2, out, prot, part) == word
        && F::read_word(level, word) == Read::Leaf { log2, prot }
}

#[test]
fn words_are_of_their_size(rt: HostRuntime) {
    let (read, both) = (Prot::Read, Prot::ReadWrite);
    assert!(rt; is_word::<Vmsa<12>>(0, 0, 0x40001, both, 0, 0x4000_1f43));
    assert!(rt; is_word::<Vmsa<12>>(0, 0, 0x40001, read, 0, 0x4000_1fc3));
    assert!(rt; is_word::<Vmsa<12>>(0, 4, 0x80010, both, 15, 0x10_0000_8001_ff43));
    assert!(rt; is_word::<Vmsa<12>>(1, 9, 0x40200, both, 0, 0x4020_0f41));
    assert!(rt; is_word::<Vmsa<12>>(1, 13, 0x42000, read, 5, 0x10_0000_42a0_0fc1));
    assert!(rt; is_word::<Vmsa<12>>(2, 18, 0x40000, read, 0, 0x4000_0fc1));
    assert!(rt; is_word::<Vmsa<12>>(2, 22, 0x400000, both, 1, 0x10_0004_4000_0f41));
    assert_eq!(rt; Vmsa::<12>::read_word(3, 0), Read::Empty);
    // the greater granules
    assert!(rt; is_word::<Vmsa<14>>(0, 7, 128, read, 127, 0x10_0000_003f_cfc3));
    assert!(rt; is_word::<Vmsa<14>>(1, 16, 0x10000, read, 31, 0x10_0000_7e00_0fc1));
    assert!(rt; is_word::<Vmsa<16>>(0, 5, 0x4000, read, 31, 0x10_0000_401f_0fc3));
    assert!(rt; is_word::<Vmsa<16>>(1, 13, 0x2000, both, 0, 0x2000_0f41));
    assert!(rt; is_word::<Vmsa<16>>(1, 18, 0x40000, both, 1, 0x10_0004_2000_0f41));
}

#[test]
fn words_of_no_leaf(rt: HostRuntime) {
    assert_eq!(rt; Vmsa::<16>::read_word(2, 0x2000_0f41), Read::Alien);
    assert_eq!(rt; Vmsa::<12>::read_word(1, 0x4000_1f41), Read::Alien);
    let table = Read::Table {
        address: 0x1_0000_0000,
    };
    assert_eq!(rt; Vmsa::<12>::read_word(1, 0x1_0000_0003), table);
    assert_eq!(rt; Vmsa::<12>::read_word(0, 0x1_0000_0003), Read::Alien);
}

// A table that is its own first child, so that entry 1 is read in the table of the level that the address says.
#[test]
fn a_walk_finds_what_is_written(rt: HostRuntime) {
    let mut words = [0; 514];
    words[0] = 3;
    words[2] = Vmsa::<12>::table_word(3, 0x1_0000_0000);
    words[3] = Vmsa::<12>::leaf_word(1, 13, 0x42000, Prot::Read, 1);
    let page = Walked::Page {
        out: 0x4220_0abc,
        prot: Prot::Read,
    };
    assert_eq!(rt; walk_vmsa(&words, 12, 0x20_0abc), page);
    assert_eq!(rt; walk_vmsa(&words, 12, 0x1abc), Walked::Alien { level: 3 });
    assert_eq!(rt; walk_vmsa(&words, 12, 0x40_0000), Walked::None);
}
