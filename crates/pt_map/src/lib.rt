//! Maps a range: a holder's book gets the blocks of the one tiling of a request.
//!
//! It stands on the walks and the draw over holders and on the tiling. `map` is proved once, over every
//! holder: it refuses before it changes anything, each of its refusals has its cause, and at `Ok` the book is
//! that of the book machine, whatever other holders do between its steps. It takes no memory.
#![tactic(auto)]

mod beyond;
mod entry;
mod fill;
mod refused;
mod replace;
mod request;
mod survey;

pub use refused::MapRefused;
pub use request::map;
