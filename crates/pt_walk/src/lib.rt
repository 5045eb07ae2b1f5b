//! Walks over a holder: what its book says of a page, and of the pages of a range, by loads alone.
//!
//! It stands on the trait of holders and on that of formats. Each call is proved once, over every
//! holder: it answers by the book, whatever other holders do between its steps, and leaves the book and
//! the purse as before. The holder may come to know of more linked positions. No call takes memory.
//!
//! A holder at rest is at rest again after `lookup`, `cut_at`, `next_block` and `first_mapped`, and at the end of a
//! walk over a range. `descend` and `climb` move along the tables over a range, and `look_below`, `first_below` and
//! `first_at` look at it from the one where the holder stands, and come back to that.
#![tactic(auto)]

mod block;
mod cut;
mod numbers;
mod path;
mod range;
mod translate;
mod walker;
mod way;

pub use block::block_of;
pub use cut::{CutRefused, cut_at, cut_page, page_above};
pub use numbers::{entry_bits, entry_number, spine_end};
pub use range::{Met, Stop, Under, climb, descend, entry_end, first_at, first_below, look_below};
pub use translate::{OutsideLease, lookup};
pub use walker::{RangeWalk, first_mapped, next_block};
