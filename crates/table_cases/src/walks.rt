//! Words and walks.

ghost use Rattle.std.specs.Prelude.{◌+◌, ◌<◌, length};
ghost use Rattle.pt_model.specs.declared.block.Prot.{Prot};
ghost use Rattle.pt_format.specs.Words.{MayBeLeaf};

use crate::leaves::is_word;
use fmt_vtdss::VtdSs;
use fmt_x86::X86;
use pt_format::{Format, Prot, Read};
use pt_manual::{Walked, walk_vtdss, walk_x86};
use pt_num::Span;
use pt_tile::Tiles;
use std::test::Fail;

// A space of one frame has the root, a tag and 512 entries, the first of which is word 2.
const ONE_FRAME: usize = 514;

#[test]
fn a_walk_over_words_made_by_hand(rt: HostRuntime) -> Result<(), Fail> {
    let mut words = vec![in rt.alloc(); 0; ONE_FRAME]?;
    words[0] = 2;
    words[2] = 0x5;
    assert_eq!(rt; walk_vtdss(&words, 3, 0), Walked::Alien { level: 3 });
    assert_eq!(rt; walk_vtdss(&words, 3, 0x4000_0000), Walked::None);
    assert_eq!(rt; walk_vtdss(&words, 3, 0x80_0000_0000), Walked::None);
    // the table points to itself, down to a page at its own address
    words[2] = 0x1_0000_0003;
    let page = Walked::Page {
        out: 0x1_0000_0abc,
        prot: Prot::ReadWrite,
    };
    assert_eq!(rt; walk_vtdss(&words, 3, 0xabc), page);
    // a root that names no frame, or another level
    words[0] = 8 + 2;
    assert_eq!(rt; walk_vtdss(&words, 3, 0xabc), Walked::Alien { level: 3 });
    words[0] = 1;
    assert_eq!(rt; walk_vtdss(&words, 3, 0xabc), Walked::Alien { level: 3 });
    Ok(())
}

// The bits of a page of 1 GiB that a walk from VT-d's third level takes as they come.
const FREE_IN_PAGE: u64 = 0xf_ffff_c000_0083;

#[test]
fn each_reserved_bit_of_a_page_is_alien(rt: HostRuntime) -> Result<(), Fail> {
    let mut words = vec![in rt.alloc(); 0; ONE_FRAME]?;
    words[0] = 2;
    let word = VtdSs::<3>::leaf_word(2, 18, 0x4_0000, Prot::ReadWrite, 0);
    assert_eq!(rt; word, 0x4000_0083);
    words[2] = word;
    let page = Walked::Page {
        out: 0x4000_0abc,
        prot: Prot::ReadWrite,
    };
    assert_eq!(rt; walk_vtdss(&words, 3, 0xabc), page);
    for bit in 0..64u32 {
        let spoiled = word | 1 << bit;
        words[2] = spoiled;
        if FREE_IN_PAGE & (1 << bit) == 0 {
            assert_eq!(rt;
                walk_vtdss(&words, 3, 0xabc),
                Walked::Alien { level: 3 },
                "bit {bit}"
            );
            assert_eq!(rt; VtdSs::<3>::read_word(2, spoiled), Read::Alien, "bit {bit}");
        }
    }
    Ok(())
}

// The bits of a pointer of x86-64 whose change leaves a word that is present and lawful, or absent.
const OTHER_IN_POINTER: u64 = 0x3;

#[test]
fn each_bit_of_a_pointer_counts(rt: HostRuntime) -> Result<(), Fail> {
    let mut words = vec![in rt.alloc(); 0; ONE_FRAME]?;
    words[0] = 3;
    let word = X86::<4>::table_word(3, 0x1_0000_0000);
    assert_eq!(rt; word, 0x1_0000_0027);
    for bit in 0..64u32 {
        if OTHER_IN_POINTER & (1 << bit) == 0 {
            words[2] = word ^ (1 << bit);
            assert_eq!(rt;
                walk_x86(&words, 4, 0xabc),
                Walked::Alien { level: 4 },
                "bit {bit}"
            );
        }
    }
    words[2] = word ^ 1;
    assert_eq!(rt; walk_x86(&words, 4, 0xabc), Walked::None);
    Ok(())
}

#[test]
fn the_words_of_blocks(rt: HostRuntime) {
    let span = Span {
        first: 0x4_0000,
        count: 0x200,
    };
    let mut large = Tiles::<X86<4>>::new(span, 0x4_0000, Prot::ReadWrite);
    let block = large.next().expect(&rt, "a block");
    assert_eq!(rt;
        (block.first, block.log2, block.out),
        (0x4_0000, 9, 0x4_0000)
    );
    assert!(rt; large.next().is_none());
    assert_eq!(rt;
        X86::<4>::leaf_word(1, 9, 0x4_0000, Prot::ReadWrite, 0),
        0x4000_00e7
    );
    let mut pages = 0u32;
    for block in Tiles::<X86<4>>::new(span, 0x4_0001, Prot::ReadWrite) {
        assert_eq!(rt; block.log2, 0);
        assert_eq!(rt; block.out, block.first.wrapping_add(1));
        pages = pages.wrapping_add(1);
    }
    assert_eq!(rt; pages, 512);
    assert_eq!(rt;
        X86::<4>::leaf_word(0, 0, 0x4_0001, Prot::ReadWrite, 0),
        0x4000_1067
    );
    assert_eq!(rt;
        X86::<4>::leaf_word(0, 0, 0x4_0200, Prot::ReadWrite, 0),
        0x4020_0067
    );
}

#[test]
fn words_are_read_back(rt: HostRuntime) {
    assert!(rt; is_word::<VtdSs<5>>((0, 0, 0x1_2345), Prot::Read, 0x1234_5001, 4));
    assert!(rt; is_word::<VtdSs<5>>((0, 0, 0x1_2345), Prot::ReadWrite, 0x1234_5003, 4));
    assert!(rt; is_word::<X86<5>>((0, 0, 0x1_2345), Prot::Read, 0x1234_5065, 8));
    assert!(rt; is_word::<X86<5>>((0, 0, 0x1_2345), Prot::ReadWrite, 0x1234_5067, 8));
    let table = Read::Table {
        address: 0x1_0000_3000,
    };
    assert_eq!(rt; VtdSs::<5>::read_word(4, 0x1_0000_3003), table);
    assert_eq!(rt; VtdSs::<5>::read_word(3, 0), Read::Empty);
    assert_eq!(rt; X86::<5>::read_word(4, 0x1_0000_3027), table);
    assert_eq!(rt; X86::<5>::read_word(3, 0), Read::Empty);
    // with PS
    assert!(rt; is_word::<VtdSs<5>>((1, 9, 0x400), Prot::Read, 0x40_0081, 4));
    assert!(rt; is_word::<VtdSs<5>>((1, 9, 0x400), Prot::ReadWrite, 0x40_0083, 4));
    assert!(rt; is_word::<VtdSs<5>>((2, 18, 0xc_0000), Prot::Read, 0xc000_0081, 4));
    assert!(rt; is_word::<VtdSs<5>>((2, 18, 0xc_0000), Prot::ReadWrite, 0xc000_0083, 4));
    assert!(rt; is_word::<X86<5>>((1, 9, 0x400), Prot::Read, 0x40_00e5, 8));
    assert!(rt; is_word::<X86<5>>((1, 9, 0x400), Prot::ReadWrite, 0x40_00e7, 8));
    assert!(rt; is_word::<X86<5>>((2, 18, 0xc_0000), Prot::Read, 0xc000_00e5, 8));
    assert!(rt; is_word::<X86<5>>((2, 18, 0xc_0000), Prot::ReadWrite, 0xc000_00e7, 8));
}

// Where the entries of frame `f` begin, in a space of four frames.
const FOUR_FRAMES: usize = 1 + 4 + 4 * 512;

const FRAME_0: usize = 5;

const FRAME_1: usize = 5 + 512;

const FRAME_2: usize = 5 + 1024;

const FRAME_3: usize = 5 + 1536;

/// Stores two blocks of one size, side by side: one that may be read, and one that may be written too.
fn put_blocks<F: Format>(words: &mut [u64], place: usize, leaf: (u32, u32, u64))
    requires read { MayBeLeaf F.layout leaf.0 leaf.1 leaf.2 Prot.Read 0 }
    requires both { MayBeLeaf F.layout leaf.0 leaf.1 leaf.2 Prot.ReadWrite 0 }
    requires room { place + 1 < length words.old }
{
    let (level, log2, out) = leaf;
    words[place] = F::leaf_word(level, log2, out, Prot::Read, 0);
    words[place + 1] = F::leaf_word(level, log2, out, Prot::ReadWrite, 0);
}

// An address in each of these blocks, where it leads, and what is permitted there.
const PAGES: [(u64, u64, Prot); 6] = [
    (0x7fff_fabc, 0xffff_fabc, Prot::Read),
    (0x8000_0abc, 0xc000_0abc, Prot::ReadWrite),
    (0x3f_fabc, 0x7f_fabc, Prot::Read),
    (0x40_0abc, 0x60_0abc, Prot::ReadWrite),
    (0x1abc, 0xffff_ffff_fabc, Prot::Read),
    (0x2abc, 0xffff_ffff_fabc, Prot::ReadWrite),
];

#[test]
fn vtd_words_walk_to_their_pages(rt: HostRuntime) -> Result<(), Fail> {
    let mut words = vec![in rt.alloc(); 0; FOUR_FRAMES]?;
    words[0] = 2;
    words[FRAME_0] = 0x1_0000_1003;
    words[FRAME_1] = 0x1_0000_2003;
    put_blocks::<VtdSs<3>>(&mut words, FRAME_0 + 1, (2, 18, 0xc_0000));
    put_blocks::<VtdSs<3>>(&mut words, FRAME_1 + 1, (1, 9, 0x600));
    put_blocks::<VtdSs<3>>(&mut words, FRAME_2 + 1, (0, 0, 0xf_ffff_ffff));
    for (address, out, prot) in PAGES {
        assert_eq!(rt; walk_vtdss(&words, 3, address), Walked::Page { out, prot });
    }
    assert_eq!(rt; walk_vtdss(&words, 3, 0x3abc), Walked::None);
    Ok(())
}

#[test]
fn x86_words_walk_to_their_pages(rt: HostRuntime) -> Result<(), Fail> {
    let mut words = vec![in rt.alloc(); 0; FOUR_FRAMES]?;
    words[0] = 3;
    // past the lower half of canonical addresses
    assert_eq!(rt; walk_x86(&words, 4, 0x8000_0000_0000), Walked::None);
    words[FRAME_0] = 0x1_0000_1027;
    words[FRAME_1] = 0x1_0000_2027;
    words[FRAME_2] = 0x1_0000_3027;
    put_blocks::<X86<4>>(&mut words, FRAME_1 + 1, (2, 18, 0xc_0000));
    put_blocks::<X86<4>>(&mut words, FRAME_2 + 1, (1, 9, 0x600));
    put_blocks::<X86<4>>(&mut words, FRAME_3 + 1, (0, 0, 0xf_ffff_ffff));
    for (address, out, prot) in PAGES {
        assert_eq!(rt; walk_x86(&words, 4, address), Walked::Page { out, prot });
    }
    Ok(())
}
