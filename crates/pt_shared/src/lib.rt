//! A range of a shared space as a part on which commands run: a lease while a call works on it, and a ticket between calls, so
//! that it may go to another thread. It stands on the leases (`pt_space`), on single commands over any holder (`pt_reply`), on
//! the need of commands (`pt_made`) and on the run over parts (`pt_beside`).
//!
//! Promised: `Shared` meets what `pt_beside::Part` asks, so that `run_over` gives the replies and the book of the book machine
//! over a lease, whatever other leases do between its steps.
#![tactic(auto)]

mod gate;
mod part;
mod run;
mod shared;

pub use gate::{Gate, Open};
pub use run::run_over;
pub use shared::Shared;
