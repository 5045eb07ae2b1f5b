//! VMSAv8-64 tables, of granules of 4, 16 and 64 KiB, as a format of page tables.
//!
//! A table is one granule of descriptors of 64 bits. A descriptor has its kind in bits 1:0, AttrIndx in bits 4:2,
//! AP[1] (unprivileged access) in bit 6, AP[2] (read-only) in bit 7, SH (shareability) in bits 9:8, AF (the access
//! flag) in bit 10, nG (not global) in bit 11, an address in bits 47 down to the granule, and Contiguous in bit 52.
//! A pointer is an address and the kind of a table. A leaf is an address and AP[1], SH, AF and nG, AP[2] where
//! writes are not permitted, with the kind of a page in the lowest table and of a block above.
//!
//! A leaf is of one entry, or of a group of entries with Contiguous: 16 with a granule of 4 KiB, 32 with the others
//! but 128 in the lowest table of 16 KiB. The entries of a group each have the address of their own part, so the
//! words of a block and of its neighbours go by one step, the bytes that an entry maps.
//!
//! Source: Arm Architecture Reference Manual for A-profile architecture (DDI 0487), the chapter on the AArch64 virtual
//! memory system.
//!
//! It stands on the trait of formats and on the manual's walk. Each instance proves the laws of formats: what is
//! written reads back, and means to the manual's walk what it says. No call takes memory.
#![tactic(auto)]

mod entry;
mod instances;
mod words;

pub use entry::Entry;
pub use instances::{Granule, Vmsa};

#[cfg(test)]
mod tests;
