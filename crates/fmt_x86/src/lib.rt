//! x86-64 tables, of four and five levels, as a format of page tables.
//!
//! A table has 512 entries of 64 bits. An entry has P (present) in bit 0, R/W (writable) in bit 1, U/S
//! (user) in bit 2, A (accessed) in bit 5, D (dirty) in bit 6, PS (page size) in bit 7, and an address in
//! bits 51:12. In the lowest table each entry maps a page of 4 KiB (PTE). One level up an entry with PS
//! maps 2 MiB (PDE), two levels up 1 GiB (PDPTE). Without PS it points to a table of the level below.
//! Above these each entry is a pointer (PML4E, PML5E). A leaf has P, U/S, A and D, and R/W where writes are
//! permitted; a pointer has P, R/W, U/S and A. So a leaf alone decides, and no walk has to set A or D. PAT,
//! G, XD and all other bits are 0.
//!
//! The input is the lower half of canonical addresses.
//!
//! Source: Intel 64 and IA-32 Architectures Software Developer's Manual, volume 3, chapter on paging,
//! 4-level paging and 5-level paging.
//!
//! It stands on the family of such formats and on the manual's walk. An instance is its bits, its step and its
//! levels, and proves the laws of formats: what is written reads back, and means to the manual's walk what it
//! says. No call takes memory.
#![tactic(auto)]

mod entry;
mod instances;

pub use entry::Entry;
pub use instances::X86;
