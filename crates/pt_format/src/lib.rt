//! The trait of page table formats: what a format is as data, its words, and its laws.
//!
//! It stands on the definitions and on numbers. A format promises that its words read back, that no
//! written word is zero, that each part of a block translates its own pages, and that its words mean to
//! the manual's walk what they say. Everything above turns bytes into pages by the calls of this crate
//! alone. No call takes memory.
//!
//! `FourKib` is the family of formats with tables of 512 entries over pages of 4 KiB: a format of it is
//! the bits of its entries, its levels, and the manual's step and walk.
#![tactic(auto)]

mod entry_bits;
mod format;
mod four_kib;
mod frame_address;
mod pages;
mod read;
mod word_run;

pub use entry_bits::{EntryBits, block_bytes, page_in};
pub use format::Format;
pub use four_kib::{FourKib, FourKibTables};
pub use frame_address::is_frame_address;
pub use pages::{byte_of, has_page, is_whole, page_of, page_under, pages_of, range_of};
pub use pt_model::{Block, Prot};
pub use pt_num::Span;
pub use read::Read;
pub use word_run::WordRun;
