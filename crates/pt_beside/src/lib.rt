//! The run of a script's commands over a part of a space, with a fork's branches beside each other: each on a part of its
//! own and, where the runtime has one, on a thread of its own. It stands on the definitions (`pt_model`), the laws on runs
//! (`pt_laws`), the places of a fork's lines (`pt_script`) and the bodies of the run over one owner (`pt_forks`), and asks of
//! a part what `Part` says.
//!
//! Promised: the replies and the book are the book machine's, where maps lack frames on the lines that are answered so. Over less
//! than the whole space those are lines that want more frames than the purse had; over the whole space the account decides outside
//! forks, and a line inside one stands in an outermost fork that doesn't cover it. Whatever happens, the part comes back with
//! its span.
#![tactic(auto)]

mod part;
mod run;

pub use part::Part;
pub use run::run_parts;
