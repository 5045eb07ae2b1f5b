//! VT-d second-stage tables, of three, four and five levels, as a format of page tables.
//!
//! A table has 512 entries of 64 bits. An entry has R (read) in bit 0, W (write) in bit 1, PS (page
//! size) in bit 7, and an address in bits 51:12; every other bit that is written is 0. In the lowest
//! table each entry maps a page of 4 KiB (SS-PTE). One level up an entry with PS maps 2 MiB (SS-PDE), two
//! levels up 1 GiB (SS-PDPE). Without PS it points to a table of the level below. Above these each entry
//! is a pointer (SS-PML4E, SS-PML5E). A pointer permits reads and writes, so a leaf alone decides.
//!
//! Source: Intel Virtualization Technology for Directed I/O, Architecture Specification, section 9.8,
//! second-stage paging entries. The profile leaves all that is optional at 0: snooping, memory types,
//! execute permission, and accessed and dirty bits.
//!
//! It stands on the family of such formats and on the manual's walk. An instance is its bits, its step and its
//! levels, and proves the laws of formats: what is written reads back, and means to the manual's walk what it
//! says. No call takes memory.
#![tactic(auto)]

mod entry;
mod instances;

pub use entry::Entry;
pub use instances::VtdSs;
