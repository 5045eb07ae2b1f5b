//! AMD tables of I/O pages, version 1, of three to six levels, as a format of page tables.
//!
//! A table has 512 entries of 64 bits. An entry has PR (present) in bit 0, the next level in bits 11:9, an address in
//! bits 51:12, IR (read) in bit 61 and IW (write) in bit 62. The next level of a pointer in a table of level `l` (from 0)
//! is `l`, and it permits all. A leaf has PR and IR, and IW where writes are permitted. In the lowest three tables there
//! are leaves of every size from what an entry maps on, and below what an entry of the next table maps: of 4 KiB, 2 MiB
//! and 1 GiB with next level 0, and of every other size to 256 GiB with next level 7, as equal words whose address codes
//! the size: its bits below half of it are 1, and that bit is 0. All other bits are 0.
//!
//! The input is all addresses of 64 bits. A tree starts with three levels or more and may get more.
//!
//! Source: AMD I/O Virtualization Technology (IOMMU) Specification, "I/O Page Tables for Host Translations".
//!
//! It stands on the trait of formats and on the manual's walk, and proves the laws of formats: what is written reads
//! back, and means to the manual's walk what it says. No call takes memory.
#![tactic(auto)]

mod entry;
mod instances;
mod words;

pub use entry::Entry;
pub use instances::AmdV1;

#[cfg(test)]
mod tests;
