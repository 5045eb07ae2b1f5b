//! The words of RISC-V tables, and their walk.

use crate::leaves::is_word;
use fmt_riscv::RiscV;
use pt_format::{Format, Prot, Read};
use pt_manual::{Walked, walk_riscv};
use pt_map::map;
use pt_plain::Plain;
use pt_walk::lookup;
use std::test::Fail;

const ONE_FRAME: usize = 514;

#[test]
fn pages_of_each_size(rt: HostRuntime) {
    assert_eq!(rt; RiscV::<3>::read_word(2, 0), Read::Empty);
    assert!(rt; is_word::<RiscV<3>>((0, 0, 0x4_0001), Prot::Read, 0x1000_04d3, 8));
    assert!(rt; is_word::<RiscV<3>>((0, 0, 0x4_0001), Prot::ReadWrite, 0x1000_04d7, 8));
    assert!(rt; is_word::<RiscV<3>>((1, 9, 0x4_0000), Prot::ReadWrite, 0x1000_00d7, 8));
    assert!(rt; is_word::<RiscV<3>>((2, 18, 0x4_0000), Prot::Read, 0x1000_00d3, 8));
}

#[test]
fn sixteen_pages_are_sixteen_equal_words(rt: HostRuntime) {
    let first = RiscV::<3>::leaf_word(0, 4, 0x8_0010, Prot::ReadWrite, 0);
    let last = RiscV::<3>::leaf_word(0, 4, 0x8_0010, Prot::ReadWrite, 15);
    assert_eq!(rt; first, 0x8000_0000_2000_60d7);
    assert_eq!(rt; last, first);
    let read = Read::Leaf {
        log2: 4,
        prot: Prot::ReadWrite,
    };
    assert_eq!(rt; RiscV::<3>::read_word(0, first), read);
    assert_eq!(rt; RiscV::<3>::read_word(1, first), Read::Alien);
    assert_eq!(rt; RiscV::<3>::read_word(0, first | 1 << 10), Read::Alien);
    let run = RiscV::<3>::word_run(0, 4, 0x8_0010, Prot::ReadWrite, 2);
    assert_eq!(rt; run.blocks, 1);
    assert_eq!(rt; run.step, 0);
    assert_eq!(rt; RiscV::<3>::out_of(0, first, 0x1f), 0x8_001f);
    assert_eq!(rt; RiscV::<3>::prot_of(0, first), Prot::ReadWrite);
}

#[test]
fn pointers_and_sizes(rt: HostRuntime) {
    let word = RiscV::<4>::table_word(3, 0x1_0000_0000);
    assert_eq!(rt; word, 0x4000_0001);
    let table = Read::Table {
        address: 0x1_0000_0000,
    };
    assert_eq!(rt; RiscV::<4>::read_word(3, word), table);
    assert_eq!(rt; RiscV::<4>::read_word(0, word), Read::Alien);
    assert_eq!(rt; RiscV::<4>::address_of(3, word), 0x1_0000_0000);
    assert_eq!(rt; RiscV::<4>::sizes(0), 0x11);
    assert_eq!(rt; RiscV::<4>::sizes(3), 1 << 27);
    assert_eq!(rt; RiscV::<5>::sizes(4), 1 << 36);
    assert_eq!(rt; RiscV::<3>::INPUT, 38);
    assert_eq!(rt; RiscV::<4>::INPUT, 47);
    assert_eq!(rt; RiscV::<5>::INPUT, 56);
}

#[test]
fn a_walk_to_sixteen_pages(rt: HostRuntime) -> Result<(), Fail> {
    let mut words = vec![in rt.alloc(); 0; ONE_FRAME]?;
    words[0] = 2;
    // the table points to itself; entries 16 to 31 are one block
    words[2] = 0x4000_0001;
    for number in 0..16 {
        words[18 + number] = 0x8000_0000_2000_60d7;
    }
    let page = Walked::Page {
        out: 0x8001_fabc,
        prot: Prot::ReadWrite,
    };
    assert_eq!(rt; walk_riscv(&words, 3, 0x1_fabc), page);
    assert_eq!(rt; walk_riscv(&words, 3, 0xf_abc), Walked::None);
    assert_eq!(rt; walk_riscv(&words, 3, 0x40_0000_0000), Walked::None);
    assert_eq!(rt; walk_riscv(&words, 4, 0), Walked::Alien { level: 3 });
    Ok(())
}

#[test]
fn sixteen_pages_are_mapped_as_one_block(rt: HostRuntime) {
    let Ok(mut owner) = Plain::<RiscV<3>>::make(rt.alloc(), 8, 3, 5) else {
        panic!(rt; "no memory")
    };
    let mapped = map(&mut owner, 0x1_0000, 0x8001_0000, 0x1_0000, Prot::ReadWrite);
    assert!(rt; mapped == Ok(()));
    let found = lookup(&mut owner, 0x1_fabc);
    assert!(rt; found == Ok(Some((0x8001_fabc, Prot::ReadWrite))));
    let words = owner.close();
    let written = words
        .iter()
        .filter(|word| **word == 0x8000_0000_2000_60d7)
        .count();
    assert_eq!(rt; written, 16);
}
