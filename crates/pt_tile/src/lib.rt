//! The tiling of a range by the blocks of a format, its runs of equal blocks, and the number of tables
//! that it needs.
//!
//! It stands on numbers and on the trait of formats. A tiling is exact: there is one for each range, and
//! at each place it has the greatest legal block that ends in the range. Ranges are in pages. Nothing
//! here takes memory.
#![tactic(auto)]

mod extent;
mod runs;
mod sizes;
mod tables;
mod tiles;

pub use extent::Extent;
pub use runs::run_length;
pub use sizes::all_sizes;
pub use tables::{count_tables, tables_needed};
pub use tiles::Tiles;
