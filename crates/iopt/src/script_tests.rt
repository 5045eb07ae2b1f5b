//! Scripts over all formats and in several numbers of frames, each against the slow book of the definitions.

use crate::book_tests::{FORMATS, FormatCase, agree_everywhere, agree_in, push_line};
use pt_model::{Prot, What};
use std::test::Fail;

/// Lines of maps and lookups.
const MAPS: [&[u8]; 7] = [
    // outputs that are a page off alignment, and ones that are aligned to 2 MiB alone
    b"map 0x200000 0x201000 0x200000 rw\nlookup 0x200000\nlookup 0x300005\nlookup 0x3fffff\n\
        map 0x40000000 0x200000 0x200000 r\nlookup 0x40012345\n\
        map 0x80000000 0x600000 0x600000 rw\nlookup 0x80400000\n\
        map 0x400000 0x3000 0x3ff000 r\nlookup 0x7ff000\nlookup 0x7fefff\n",
    // ranges over the borders of 2 MiB and of 1 GiB
    b"map 0x1fe000 0x1fe000 0x204000 rw\nlookup 0x1ff000\nlookup 0x200000\nlookup 0x400000\n\
        lookup 0x402000\nmap 0x3fe00000 0xbfe00000 0x400000 r\nlookup 0x3fffffff\n\
        lookup 0x40000000\nlookup 0x40200000\nmap 0xbffff000 0x1fffff000 0x40002000 rw\n\
        lookup 0xbffff000\nlookup 0xc0000000\nlookup 0x100000000\nlookup 0x100001000\n",
    // a mapped page, or a block, in the middle of a range, at its front and at its end
    b"map 0x300000 0x500000 0x1000 rw\nmap 0x200000 0x200000 0x400000 rw\n\
        map 0x2ff000 0x0 0x2000 rw\nmap 0x301000 0x0 0x1000 r\nmap 0x200000 0x0 0x200000 rw\n\
        map 0x40000000 0x40000000 0x200000 rw\nmap 0x3ffff000 0x0 0x2000 rw\n\
        map 0x401ff000 0x0 0x2000 rw\nmap 0x0 0x0 0x100000000 rw\n\
        map 0x40001000 0x0 0x1000 rw\nlookup 0x300000\nlookup 0x301000\nlookup 0x200000\n",
    // one frame: blocks of the top table alone can be mapped, and pages lack frames
    b"map 0x0 0x0 0x1000 rw\nmap 0x40000000 0x80000000 0x40000000 rw\n\
        map 0x100000000 0x100000000 0x200000 rw\nmap 0x0 0x0 0x0 rw\nlookup 0x40000000\n\
        lookup 0x0\n",
    // one frame less than a map needs, at each level, and then as many as it needs
    b"map 0x0 0x0 0x1000 rw\nmap 0x1ff000 0x1ff000 0x2000 rw\nmap 0x400000 0x0 0x1000 rw\n\
        map 0x200000 0x400000 0x200000 rw\nmap 0x400000 0x0 0x1000 rw\n\
        map 0x600000 0x0 0x1000 rw\nmap 0x40000000 0x40000000 0x200000 rw\n\
        map 0x800000 0x200000 0x200000 rw\nlookup 0x1fffff\nlookup 0x200000\nlookup 0x400000\n\
        lookup 0x800000\n",
    // ranges of which only pages, or blocks of 2 MiB, could tile more than the frames reach
    b"map 0x0 0x1000 0x1000000 rw\nmap 0x40000000 0x200000 0x100000000 rw\n\
        map 0x0 0x1000 0x400000 rw\nmap 0x0 0x200000 0x80000000 r\n\
        map 0x0 0x200000 0x20000000 r\nmap 0x200000000 0x1000 0x1000000 rw\nlookup 0x0\n\
        lookup 0x13fffffff\nlookup 0x140000000\n",
    // frames that are held from the start, all of them and some
    b"map 0x1234 0x0 0x1000 rw\nmap 0x0 0x10 0x1000 rw\nmap 0x1000 0x1000 0xfff rw\n\
        map 0x1000000 0x0 0x1000 rw\nmap 0x40000000 0x0 0x2000 r\n\
        map 0x80000000 0x0 0x1000 rw\nlookup 0x1000000\nlookup 0x40001000\nlookup 0x80000000\n",
];

#[test]
fn maps_are_answered_as_by_the_book(rt: HostRuntime) -> Result<(), Fail> {
    for lines in MAPS {
        assert!(rt; agree_everywhere(&rt, rt.alloc(), lines)?);
    }
    Ok(())
}

fn map(va: u64, pa: u64, len: u64) -> What {
    let prot = Prot::ReadWrite;
    What::Map { va, pa, len, prot }
}

/// Maps and lookups of the last page of the space, of the first one past it, and onto the last output page.
fn at_the_ends(format: FormatCase) -> [What; 15] {
    let page = 1 << (format.granule % 64);
    let table = format.borders[1];
    let last_table = format.last & !table.wrapping_sub(1);
    [
        map(format.last, 0, page),
        map(format.last, 0, page.wrapping_add(page)),
        map(format.end, 0, page),
        What::Lookup {
            va: format.last | 0xfff,
        },
        What::Lookup { va: format.end },
        map(0, format.last_output, page),
        What::Lookup { va: 0xfff },
        map(table, format.last_output, page.wrapping_add(page)),
        map(table, format.outputs_end, page),
        map(last_table, table, table.wrapping_sub(page)),
        What::Lookup { va: last_table },
        map(table, format.last_output & !table.wrapping_sub(1), table),
        What::Lookup { va: table | 0xfff },
        map(page.wrapping_neg(), 0, page),
        What::Lookup {
            va: 0xffff_ffff_ffff_ffff,
        },
    ]
}

#[test]
fn the_space_has_its_ends(rt: HostRuntime) -> Result<(), Fail> {
    for format in FORMATS {
        let mut lines = Vec::new(rt.alloc());
        for what in at_the_ends(format) {
            push_line(&mut lines, what)?;
        }
        assert!(rt; agree_in(&rt, rt.alloc(), format, 60, &lines)?);
    }
    Ok(())
}
