//! What a single command answers over a holder, and the text of replies.
//!
//! It stands on the trait of holders and the calls over them, and on the trait of formats. What a command answers is proved
//! over every holder at rest that is alone: it is what the book machine answers by the holder's book, and it leaves the
//! holder at rest with the book that the machine comes to, or after want of memory with the book that it had. A dump of a
//! part of the span answers the blocks of that part. The text that is appended for a reply is the book machine's.
#![tactic(auto)]

mod commands;
mod text;

pub use commands::{answer, dump};
pub use text::push_reply;
