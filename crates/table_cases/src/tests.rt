ghost use Rattle.std.specs.Prelude.{◌+◌, ◌≤◌, ◌≢◌};
ghost use Rattle.pt_model.specs.Layout.{input_pages, output_pages};

use fmt_vtdss::VtdSs;
use fmt_x86::X86;
use pt_format::{Format, Prot};
use pt_num::{Span, greatest_step};
use pt_tile::{Tiles, all_sizes, run_length, tables_needed};

const CAP: u64 = 32_769;

// 2 MiB of input pages, from 2 MiB on
const TABLE: Span = Span {
    first: 0x200,
    count: 0x200,
};

#[test]
fn two_mebibytes_are_one_block(rt: HostRuntime) {
    let mut blocks = Tiles::<VtdSs<3>>::new(TABLE, 0x400, Prot::ReadWrite);
    let block = blocks.next().expect(&rt, "a block");
    assert_eq!(rt; block.log2, 9);
    assert_eq!(rt; block.out, 0x400);
    assert!(rt; blocks.next().is_none());
    assert_eq!(rt; tables_needed::<VtdSs<3>>(TABLE, 0x400, 3, CAP), 1);
}

#[test]
fn an_output_off_by_a_page_takes_pages(rt: HostRuntime) {
    let mut last = 0;
    for block in Tiles::<VtdSs<3>>::new(TABLE, 0x401, Prot::Read) {
        assert_eq!(rt; block.log2, 0);
        last = block.first;
    }
    assert_eq!(rt; last, 0x3ff);
    assert_eq!(rt; tables_needed::<VtdSs<3>>(TABLE, 0x401, 3, CAP), 2);
}

#[test]
fn tables_meet_at_a_border(rt: HostRuntime) {
    let border = Span {
        first: 0x1ff,
        count: 2,
    };
    assert_eq!(rt; tables_needed::<VtdSs<3>>(border, 0x1ff, 3, CAP), 3);
    assert_eq!(rt; tables_needed::<VtdSs<3>>(border, 0x1ff, 3, 2), 2);
    let space = Span {
        first: 0,
        count: 1 << 27,
    };
    assert_eq!(rt; tables_needed::<VtdSs<3>>(space, 1, 3, u64::MAX), 262_656);
    assert_eq!(rt; tables_needed::<VtdSs<3>>(space, 1, 3, CAP), CAP);
    assert_eq!(rt; tables_needed::<VtdSs<3>>(space, 0, 3, CAP), 0);
    let long = Span {
        first: 0,
        count: (1 << 40) - 1,
    };
    assert_eq!(rt; tables_needed::<VtdSs<5>>(long, 1, 5, CAP), CAP);
}

/// Whether the next blocks of a tiling are `count` blocks of `2^log2` pages that follow each other.
fn has_run<F: Format>(blocks: &mut Tiles<F>, count: u64, log2: u32, first: u64, out: u64) -> bool {
    let mut place = (first, out);
    for _ in 0..count {
        let Some(block) = blocks.next() else {
            return false;
        };
        if block.log2 != log2 || (block.first, block.out) != place {
            return false;
        }
        let pages = 1u64.wrapping_shl(log2);
        place = (place.0.wrapping_add(pages), place.1.wrapping_add(pages));
    }
    true
}

/// How many runs make up a tiling, where their blocks are those that `Tiles` gives.
fn runs_of<F: Format>(span: Span, out: u64) -> Option<u32>
    requires some { span.count ≢ 0 }
    requires in_input { span.first + span.count ≤ input_pages F.layout }
    requires in_output { out + span.count ≤ output_pages F.layout }
{
    let sizes = all_sizes::<F>();
    let mut blocks = Tiles::<F>::new(span, out, Prot::Read);
    let mut gone = 0;
    let mut runs = 0u32;
    while gone < span.count {
        let (first, to, left) = (span.first + gone, out + gone, span.count - gone);
        let log2 = greatest_step(first, to, left, sizes);
        let count = run_length::<F>(first, to, left, log2, sizes);
        if !has_run::<F>(&mut blocks, count, log2, first, to) {
            return None;
        }
        gone += count << log2;
        runs = runs.wrapping_add(1);
    }
    if blocks.next().is_some() {
        return None;
    }
    Some(runs)
}

// The first page of a range, its pages, its first output page, and its runs.
const RUNS: [(u64, u64, u64, u32); 9] = [
    (0x5, 1, 0x9, 1),
    (0x200, 0x200, 0x400, 1),
    (0, 1 << 18, 1 << 18, 1),
    // the output off by a page, and by 2 MiB
    (0, 1 << 18, 0x1, 1),
    (0, 1 << 18, 0x200, 1),
    // 2 pages, a block of 2 MiB, 3 pages
    (0x1fe, 0x205, 0x3fe, 3),
    // a page and 3 blocks of 2 MiB, which never lie alike in 1 GiB
    (0x1ff, 0x601, 0x3ff, 2),
    // 3 pages, and 7 more from where a block of 2 MiB could begin
    (0x1fd, 0xa, 0x3fd, 2),
    // 2 pages, 2 blocks of 2 MiB, 3 of 1 GiB, 5 of 2 MiB, 7 pages
    (0x3_fbfe, 0xc_0e09, 0x7_fbfe, 5),
];

#[test]
fn tilings_are_gone_through_by_runs(rt: HostRuntime) {
    for (first, count, out, runs) in RUNS {
        assert!(rt; count != 0 && count <= 1 << 20);
        assert!(rt; first <= 1 << 20 && out <= 1 << 20);
        let span = Span { first, count };
        assert_eq!(rt;
            runs_of::<VtdSs<3>>(span, out),
            Some(runs),
            "from page {first}"
        );
        assert_eq!(rt;
            runs_of::<X86<4>>(span, out),
            Some(runs),
            "from page {first}"
        );
    }
}
