//! Changes over a range: the draw of free frames, the unlinking of tables that hold nothing, and the unmap of a range.
//!
//! It stands on the walks over holders. Each call is proved once, over every holder, and what it says holds
//! whatever other holders do between its steps: a draw leaves the book and the path as they are, `clear_empty`
//! leaves the blocks, and `unmap` takes the blocks and the tables of a range away or refuses before it changes
//! anything; both leave the holder at rest, and sweep the range in the same way. `clear_tables` unlinks tables under
//! the path's last one, and `raise` raises the top. No call takes memory.
#![tactic(auto)]

mod empty;
mod entry;
mod frames;
mod refused;
mod request;
mod root;
mod sweep;
mod tables;

pub use empty::clear_empty;
pub use frames::draw;
pub use refused::UnmapRefused;
pub use request::unmap;
pub use root::raise;
pub use tables::clear_tables;
