//! The run of a script on a space of its own, and the text of its replies.
//!
//! It stands on the owner of a space that runs forks (`pt_narrow`), on the leases that run them beside each other (`pt_shared`), on
//! the replies and their text (`pt_reply`), on the census and the walk of a closed space (`pt_closed`, `pt_names`), on the script
//! language and on made scripts (`pt_made`).
//!
//! It promises that the replies to a script are those of the book machine's run of it: over one owner (`run_plain`) where the
//! account decides of frames, and on a shared space (`run_shared`) where inside forks the lines that are answered so lack
//! them, each of which stands in an outermost fork that doesn't cover it. Where no outermost fork is short both runs have the
//! same replies, and so they have where the frames held are at least the script's need; then no map lacks frames. `run_on`
//! runs commands on a lease that is handed in, and `run_from` is `run_shared` begun with the space of sound words and their book.
//! `words_of` answers the words of the space that a script leaves, with the last book of its run over one owner. And it promises
//! that the text of replies is the run's.
#![tactic(auto)]

mod asks;
mod laws;
mod one_owner;
mod replies;
mod shared;

pub use laws::{ample_run_is_plain, shared_run_is_plain};
pub use one_owner::{run_plain, words_of};
pub use pt_closed::census_of;
pub use pt_made::{generate, need, need_of, summary_text};
pub use pt_shared::{Gate, Open};
pub use replies::{Replies, reply_text};
pub use shared::{run_from, run_on, run_shared};

#[cfg(test)]
mod tests;
