//! One owner of a whole space in parts of it, so that a script's forks run over it.
//!
//! It stands on the words of one owner (`pt_plain`), on what a single command answers over a holder at rest (`pt_reply`),
//! on the cuts of a span (`pt_walk`), and on the run of commands over an owner (`pt_forks`).
//!
//! Promised: inside the parts of forks each command answers by the book of the whole space in the present span, and is
//! refused where it reaches out of that; `run_over` answers the book machine's replies to a whole body, forks in forks too,
//! and gives the owner back with the machine's last book.
#![tactic(auto)]

mod narrowed;
mod owner;
mod run;
mod span;

pub use narrowed::{Narrowed, Narrowing};
pub use run::run_over;
