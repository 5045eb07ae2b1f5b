//! The run of a script's commands over one owner of a whole space: a fork's branches one after the other, each in its part
//! of the span. It stands on the definitions (`pt_model`), the laws on runs (`pt_laws`) and the places of a fork's lines
//! (`pt_script`), and asks of an owner what `Owner` says.
//!
//! Promised: `run_part` appends the replies of the book machine to commands whose forks close, and leaves the owner with
//! the machine's last book; whatever happens, the owner stands in the span in which it stood before.
#![tactic(auto)]

mod owner;
mod run;

pub use owner::Owner;
pub use run::run_part;
