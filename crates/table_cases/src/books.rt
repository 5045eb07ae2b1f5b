//! The slow book of the definitions: the tables of maps, and the frames that they take.

use fmt_vtdss::VtdSs;
use fmt_x86::X86;
use pt_book::ListBook;
use pt_format::{Format, Prot};
use pt_model::Position;
use pt_num::Memory;
use std::test::Fail;

const PAGE: u64 = 0x1000;

const GIBIBYTE: u64 = 0x4000_0000;

/// Maps a range, and answers whether it was allowed and `frames` frames are enough for it and one fewer
/// isn't.
fn takes<F: Format>(
    book: &mut ListBook<F>,
    (va, pa, len): (u64, u64, u64),
    frames: u32,
) -> Result<bool, Memory> {
    if frames == 0 {
        return Ok(false);
    }
    match book.refusal(va, pa, len) {
        Some(_) => Ok(false),
        None => {
            let enough = !book.is_short(frames, va, pa, len, Prot::ReadWrite)?;
            let fewer = book.is_short(frames - 1, va, pa, len, Prot::ReadWrite)?;
            book.map(va, pa, len, Prot::ReadWrite)?;
            Ok(enough && fewer)
        }
    }
}

fn at(level: u32, base: u64) -> Position {
    Position { level, base }
}

#[test]
fn maps_have_their_tables(rt: HostRuntime) -> Result<(), Fail> {
    let mut book = ListBook::<VtdSs<3>>::new(rt.alloc(), 3);
    assert_eq!(rt; book.tables().len(), 0);
    // a page needs the table that has it and the one above, under the top
    assert!(rt; takes(&mut book, (PAGE, 0x20_0000, PAGE), 3)?);
    assert_eq!(rt; book.tables(), [at(0, 0), at(1, 0)].as_slice());
    // a page beside it, and a block of 2 MiB, which stands in the table above
    assert!(rt; takes(&mut book, (2 * PAGE, 0x20_0000, PAGE), 3)?);
    assert!(rt; takes(&mut book, (0x20_0000, 0x20_0000, 0x20_0000), 3)?);
    assert_eq!(rt; book.tables(), [at(0, 0), at(1, 0)].as_slice());
    // two pages around the border of two tables of the middle level
    assert!(rt; takes(&mut book, (GIBIBYTE - PAGE, 0x30_0000, 2 * PAGE), 6)?);
    let tables = [
        at(0, 0),
        at(0, 0x3_fe00),
        at(0, 0x4_0000),
        at(1, 0),
        at(1, 0x4_0000),
    ];
    assert_eq!(rt; book.tables(), tables.as_slice());
    // a block of 1 GiB stands in the top
    assert!(rt; takes(&mut book, (3 * GIBIBYTE, GIBIBYTE, GIBIBYTE), 6)?);
    assert_eq!(rt; book.tables(), tables.as_slice());
    Ok(())
}

#[test]
fn many_pages_have_many_tables(rt: HostRuntime) -> Result<(), Fail> {
    let mut book = ListBook::<VtdSs<3>>::new(rt.alloc(), 3);
    // the output is off by a page, so that 256 MiB are pages alone
    assert!(rt; takes(&mut book, (2 * GIBIBYTE, PAGE, GIBIBYTE / 4), 130)?);
    assert_eq!(rt; book.tables().len(), 129);
    assert!(rt; book.tables()[127] == at(0, 0x8_fe00));
    // 128 MiB below it, by pages too, and a page far from these
    assert!(rt; takes(&mut book, (GIBIBYTE, PAGE, GIBIBYTE / 8), 195)?);
    assert!(rt; takes(&mut book, (0, 0, PAGE), 197)?);
    Ok(())
}

#[test]
fn four_levels_have_three_tables_under_the_top(rt: HostRuntime) -> Result<(), Fail> {
    let mut book = ListBook::<X86<4>>::new(rt.alloc(), 4);
    // the last page of the space
    assert!(rt; takes(&mut book, (0x7fff_ffff_f000, 0, PAGE), 4)?);
    let last = [
        at(0, 0x7_ffff_fe00),
        at(1, 0x7_fffc_0000),
        at(2, 0x7_f800_0000),
    ];
    assert_eq!(rt; book.tables(), last.as_slice());
    // a block of 1 GiB stands under the top, in a table that is not there yet
    assert!(rt; takes(&mut book, (0, 0, GIBIBYTE), 5)?);
    assert_eq!(rt; book.tables().len(), 4);
    assert!(rt; book.tables()[2] == at(2, 0));
    Ok(())
}
