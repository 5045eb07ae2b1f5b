//! RISC-V tables, of three, four and five levels, as a format of page tables.
//!
//! A table has 512 entries of 64 bits. An entry has V (valid) in bit 0, R (readable) in bit 1, W (writable) in
//! bit 2, U (user) in bit 4, A (accessed) in bit 6, D (dirty) in bit 7, a page number in bits 53:10, and N in
//! bit 63. A pointer is a page number and V. A leaf has V, R, U, A and D, and W where writes are permitted; in a
//! table of level `l` it maps 4 KiB, 2 MiB, 1 GiB, 512 GiB or 256 TiB. In the lowest table sixteen equal words
//! with N map 64 KiB: the low four bits of their page number are 1000. X, G, PBMT and all other bits are 0.
//!
//! The input is the lower half of canonical addresses.
//!
//! Source: The RISC-V Instruction Set Manual, Volume II: Privileged Architecture, Sv39, Sv48, Sv57 and Svnapot.
//!
//! It stands on the trait of formats and on the manual's walk. Each instance proves the laws of formats: what is
//! written reads back, and means to the manual's walk what it says. No call takes memory.
#![tactic(auto)]

mod entry;
mod instances;
mod words;

pub use entry::Entry;
pub use instances::{Levels, RiscV};
