//! The walk of the tables, which copies what it accepts.

ghost use Rattle.std.specs.Prelude.{◌≡◌, ◌≢◌, ℕ, ◌+◌, ◌<◌, ◌≤◌, ◌^◌, ◌↔◌, length, IsTrue, IfErr, IfOk};
ghost use Rattle.pt_format.specs.Words.{IsTableLevel};
ghost use Rattle.pt_image.specs.Checks.{AreWords, CopiesTo, GoesOn, IsEntryIn, IsHeaderOf, IsTableIn, LeavesGood, RefusesFor, VisitsTo, position_of};
ghost use Rattle.pt_image.specs.Drafts.{linked_words};

use crate::block::copy_block;
use crate::bytes::read_entry;
use crate::fault::{EntryFault, ImageFault};
use crate::header::Header;
use crate::table::{Entry, Table};
use pt_format::{Format, Read};
use pt_walk::entry_bits;
use pt_words::{entry_place, frame_address, frame_named, placed_word};

/// Links a frame, whose tag is written, at an entry of a table.
fn link<F: Format>(
    image: &[u8],
    header: &Header,
    words: &mut [u64],
    table: Table,
    entry: Entry,
    child: u32,
)
    requires header { IsHeaderOf F.layout header.now image.now }
    requires words { AreWords F.layout header.now words.old }
    requires table { IsTableIn F.layout header.now table }
    requires entry { IsEntryIn F.layout header.now image.now table entry }
    requires level { IsTableLevel F.layout table.level }
    requires child { child < header.now.frames }
    ensures { words.new ≡ linked_words F.layout header.now.frames words.old table.frame entry.number (position_of table) child }
{
    words[1 + child as usize] = placed_word(table.level - 1, entry.first);
    words[entry_place::<F>(header.frames, table.frame, entry.number)] = F::table_word(
        table.level,
        frame_address::<F>(child),
    );
}

/// Whether entry 0 of a table must be a pointer: the table is one at page 0 above the level at which the space started.
fn is_bridge(header: &Header, table: Table) -> bool
    requires { 1 ≤ header.now.levels }
    ensures { IsTrue result ↔ ((table.base ≡ 0) × (header.now.levels ≤ table.level)) }
{
    table.base == 0 && table.level >= header.levels
}

/// Checks the entries of a table in order, each pointer's table right after it, and copies them.
#[cycle(visit)]
pub(crate) fn visit<F: Format>(
    image: &[u8],
    header: &Header,
    words: &mut [u64],
    table: Table,
) -> Result<(), ImageFault>
    requires header { IsHeaderOf F.layout header.now image.now }
    requires words { AreWords F.layout header.now words.old }
    requires table { IsTableIn F.layout header.now table }
    ensures long { length words.new ≡ length words.old }
    ensures copies { IfOk result (λ _. CopiesTo F.layout header.now words.old words.new table (2 ^ F.layout.index)) }
    ensures visits { IfOk result (λ _. VisitsTo F.layout header.now image.now words.old words.new table (2 ^ F.layout.index)) }
    ensures good { IfOk result (λ _. LeavesGood F.layout header.now image.now words.old words.new table 0 (2 ^ F.layout.index)) }
    ensures bad { IfErr result (RefusesFor F.layout header.now image.now words.old table 0 (2 ^ F.layout.index)) }
{
    if is_bridge(header, table) && read_entry::<F>(image, header.frames, table.frame, 0) == 0 {
        return Err(table.fault(0, EntryFault::Spine));
    }
    let bits = entry_bits::<F>(table.level);
    let last = ((1u64 << (F::INPUT - F::GRANULE)) - 1 - table.base) >> bits;
    let mut number = 0;
    while number < 1 << F::INDEX {
        let word = read_entry::<F>(image, header.frames, table.frame, number);
        let mut done = 1;
        if word != 0 {
            if u64::from(number) > last {
                return Err(table.fault(number, EntryFault::Outside));
            }
            let first = table.base + (u64::from(number) << bits);
            let entry = Entry {
                number,
                first,
                word,
            };
            done = enter::<F>(image, header, words, table, entry)?;
        }
        number += done;
    }
    Ok(())
}

/// Checks an entry that isn't zero, whose pages are of the space, and copies it with its block or its table. How many
/// entries are done.
#[cycle(visit)]
fn enter<F: Format>(
    image: &[u8],
    header: &Header,
    words: &mut [u64],
    table: Table,
    entry: Entry,
) -> Result<u32, ImageFault>
    requires header { IsHeaderOf F.layout header.now image.now }
    requires words { AreWords F.layout header.now words.old }
    requires table { IsTableIn F.layout header.now table }
    requires entry { IsEntryIn F.layout header.now image.now table entry }
    ensures long { length words.new ≡ length words.old }
    ensures goes_on { IfOk result (λ k. GoesOn F.layout header.now image.now words.old words.new table entry.number k) }
    ensures good { IfOk result (λ k. LeavesGood F.layout header.now image.now words.old words.new table entry.number k) }
    ensures bad { IfErr result (RefusesFor F.layout header.now image.now words.old table entry.number 1) }
{
    match F::read_word(table.level, entry.word) {
        Read::Empty => Ok(1),
        Read::Alien => Err(table.fault(entry.number, EntryFault::Alien)),
        Read::Leaf { log2, prot } => {
            match copy_block::<F>(image, header, words, table, entry, log2, prot) {
                Some(count) => Ok(count),
                None => Err(table.fault(entry.number, EntryFault::Group)),
            }
        }
        Read::Table { address } => {
            let child = frame_named::<F>(address);
            if child >= header.frames {
                return Err(table.fault(entry.number, EntryFault::Pointer));
            }
            if words[1 + child as usize] != 0 {
                return Err(table.fault(entry.number, EntryFault::Shared));
            }
            link::<F>(image, header, words, table, entry, child);
            let under = Table {
                frame: child,
                level: table.level - 1,
                base: entry.first,
            };
            visit::<F>(image, header, words, under)?;
            Ok(1)
        }
    }
}
