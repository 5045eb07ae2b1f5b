//! The definitions that the proofs of the whole project speak of: formats as data, pages, blocks, table
//! positions, the words of a space, the book of a range and how each call answers by it, the run of a
//! script and the text of its replies.
//!
//! It stands on no other crate. The code here is plain data, since the definitions name it; the
//! definitions are in `specs/`. What comes from a manual stands with the walks and the formats. The crates
//! above promise to meet the definitions; this one promises the laws that it has as functions.
#![tactic(auto)]

ghost use Rattle.pt_model.specs.Pages.{RangesAreBytes};
ghost use Rattle.pt_model.specs.Tiling.{HasOneTiling};

mod block;
mod command;
mod position;
mod reply;

pub use block::{Block, Prot};
pub use command::{Ask, AskWhat, Command, Name, What};
pub use position::Position;
pub use reply::{
    Answer, Census, Dump, ForkAnswer, Listed, LookupAnswer, MapAnswer, Reply, UnmapAnswer,
};

/// There is one tiling of a range of pages, and the list `tiling` is it.
pub fn has_one_tiling()
    ensures { HasOneTiling }
{}

/// A range of whole pages has a run of pages exactly where each of its bytes has a page of that run.
pub fn ranges_are_bytes()
    ensures { RangesAreBytes }
{}
