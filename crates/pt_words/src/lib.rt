//! The words of a space, as every holder of it reads and writes them: where the root's word, a frame's tag and an entry
//! stand, what a tag and a frame's address say, and the words of a new space.
//!
//! It stands on the definitions of words (`pt_model`), on the tags of purses (`pt_rule`) and on the trait of formats
//! (`pt_format`).
//!
//! Promised: each function answers what the definition of its name says; a new space's words are those with which the rule
//! of the words begins.
#![tactic(auto)]

mod opening;
mod words;

pub use opening::{first_frame, new_words};
pub use words::{
    entry_place, frame_address, frame_named, held_word, next_in, placed_word, root_word, set_tag,
    word_count,
};
