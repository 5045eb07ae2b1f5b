//! Scripts that are made of numbers, against a generator written apart from this one, and a summary by hand.

use crate::draws::Draws;
use crate::{generate, need, need_of, summary_text};
use pt_model::{
    Answer, Block, Census, Command, LookupAnswer, MapAnswer, Name, Prot, Reply, UnmapAnswer, What,
};
use pt_num::Memory;
use pt_script::{parse, print};
use std::alloc::Global;
use std::test::Fail;

/// A script by its number: its format, its need, and a hash of its text.
#[derive(Drop)]
struct Expected {
    number: u64,
    format: Name,
    need: u32,
    hash: u64,
}

fn text_of(number: u64, format: Name, need: u32, hash: u64) -> Expected {
    Expected {
        number,
        format,
        need,
        hash,
    }
}

fn all_formats() -> [Expected; 12] {
    [
        text_of(0, Name::AmdV1, 4817, 0x7d25_5b16_2898_0f72),
        text_of(1, Name::VtdSs3, 4908, 0x22ce_058a_be85_61cf),
        text_of(2, Name::VtdSs4, 6987, 0xf8dd_fd70_a971_8be5),
        text_of(3, Name::VtdSs5, 8986, 0x746e_fbe0_33b1_7e1d),
        text_of(4, Name::X86L4, 6962, 0xf5f7_27ab_336b_dead),
        text_of(5, Name::X86L5, 8952, 0xe62a_b4c3_c43d_479f),
        text_of(6, Name::Vmsa4, 7000, 0x8ae2_0162_f9e4_1ab8),
        text_of(7, Name::Vmsa16, 1683, 0x93c8_dcf5_0be6_394c),
        text_of(8, Name::Vmsa64, 296, 0xde32_cc09_0333_e0eb),
        text_of(9, Name::Sv39, 4955, 0x0a4d_feb4_170b_9347),
        text_of(10, Name::Sv48, 6898, 0xe849_bd69_b9a0_14d8),
        text_of(11, Name::Sv57, 9050, 0x63aa_de8d_5c8f_16a2),
    ]
}

/// The 64-bit hash of Fowler, Noll and Vo, in its variant 1a.
fn hash_of(bytes: &[u8]) -> u64 {
    let mut hash: u64 = 0xcbf2_9ce4_8422_2325;
    for byte in bytes {
        hash = (hash ^ u64::from(*byte)).wrapping_mul(0x100_0000_01b3);
    }
    hash
}

fn is_as_expected(alloc: Global, wanted: &Expected) -> bool {
    let Ok(script) = generate(alloc, wanted.number) else {
        return false
    };
    let Ok(text) = print(alloc, &script) else {
        return false
    };
    let Ok(again) = parse(alloc, &text) else {
        return false
    };
    script.format == wanted.format
        && script.hold == wanted.need
        && need(&again) == u64::from(wanted.need)
        && hash_of(&text) == wanted.hash
}

#[test]
fn each_format_is_made(rt: HostRuntime) {
    for wanted in &all_formats() {
        assert!(rt; is_as_expected(rt.alloc(), wanted));
    }
}

#[test]
fn numbers_wrap(rt: HostRuntime) {
    let last = text_of(u64::MAX, Name::VtdSs5, 8743, 0xf03a_f6b4_6b81_b33c);
    assert!(rt; is_as_expected(rt.alloc(), &last));
}

#[test]
fn first_draws(rt: HostRuntime) {
    let mut draws = Draws { state: 0 };
    assert!(rt; draws.draw() == 167_951_807);
}

#[test]
fn made_of_zero(rt: HostRuntime) -> Result<(), Memory> {
    let script = generate(rt.alloc(), 0)?;
    let commands = script.body.commands();
    assert!(rt; commands.len() + script.tail.asks().len() + 5 == 4015);
    assert!(rt;
        commands[0]
            == Command {
                line: 4,
                what: What::Fork { at: 0x110_0000 }
            }
    );
    assert!(rt;
        commands[1]
            == Command {
                line: 5,
                what: What::Fork { at: 0x90_0000 }
            }
    );
    assert!(rt;
        commands[2]
            == Command {
                line: 6,
                what: What::Lookup { va: 0x80_8000 }
            }
    );
    let map = What::Map {
        va: 0x89_b000,
        pa: 0x1_0089_c000,
        len: 0x6_5000,
        prot: Prot::Read,
    };
    assert!(rt; commands[3] == Command { line: 7, what: map });
    Ok(())
}

fn map(line: u32, va: u64, pa: u64, len: u64) -> Command {
    let prot = Prot::ReadWrite;
    Command {
        line,
        what: What::Map { va, pa, len, prot },
    }
}

#[test]
fn needs(rt: HostRuntime) {
    // two tables under each of two maps; an address in the middle of a page, and a range past the space's end
    let commands = [
        map(4, 0xf_f000, 0x5000, 0x1000),
        map(5, 0x10_0000, 0x7000, 0x1000),
        map(6, 0x123, 0x0, 0x1000),
        map(7, 0x7f_ffff_f000, 0x0, 0x2000),
        map(8, 0x0, 0xf_ffff_ffff_f000, 0x2000),
    ];
    assert!(rt; need_of(Name::VtdSs3, 3, 16, &commands) == 4);
    // a map that needs more tables than there are frames counts one more than all of them
    assert!(rt; need_of(Name::VtdSs3, 3, 1, &[map(4, 0x3fff_f000, 0x0, 0x2000)]) == 2);
    assert!(rt;
        need_of(
            Name::AmdV1,
            3,
            8,
            &[map(4, 0x0, 0x1000, 0xf_ffff_ffff_f000)]
        ) == 9
    );
}

fn reply(line: u32, answer: Answer) -> Reply {
    Reply { line, answer }
}

/// A block that an unmap would cut.
const CUT: Block = Block {
    first: 0,
    log2: 5,
    out: 0,
    prot: Prot::Read,
};

#[test]
fn summary_by_hand(rt: HostRuntime) -> Result<(), Memory> {
    let script = generate(rt.alloc(), 8)?;
    let replies = [
        reply(6, Answer::Map(MapAnswer::Mapped)),
        reply(7, Answer::Map(MapAnswer::Occupied { address: 0 })),
        reply(8, Answer::Map(MapAnswer::Occupied { address: 9 })),
        reply(9, Answer::Map(MapAnswer::Misaligned)),
        reply(10, Answer::Unmap(UnmapAnswer::Unmapped { pages: u64::MAX })),
        reply(11, Answer::Unmap(UnmapAnswer::Unmapped { pages: 2 })),
        reply(12, Answer::Unmap(UnmapAnswer::Cuts { block: CUT })),
        reply(
            13,
            Answer::Lookup(LookupAnswer::Found {
                out: 0,
                prot: Prot::Read,
            }),
        ),
        reply(14, Answer::Lookup(LookupAnswer::Nothing)),
        reply(15, Answer::Lookup(LookupAnswer::Nothing)),
        reply(16, Answer::Lookup(LookupAnswer::Outside)),
        reply(
            254,
            Answer::Census(Census {
                levels: 3,
                tables: 7,
                blocks: 20,
                pages: 300,
            }),
        ),
    ];
    let text = summary_text(rt.alloc(), 8, &script, &replies)?;
    let wanted: &[u8] = b"made 8 format vmsa64 lines 255\nmaps ok 1 occupied 2\n\
        unmaps ok 2 cuts 1 pages 18446744073709551617\nlookups found 1 none 2\n\
        census levels 3 tables 7 blocks 20 pages 300\n";
    assert!(rt; text.as_slice() == wanted);
    Ok(())
}
