//! The words of one owner, as a holder of the whole space.
//!
//! It stands on the trait of holders (`pt_view`), on the rule of the words (`pt_rule`) and on the trait of
//! formats (`pt_format`). It promises that its words and its one view meet the rule between any two calls,
//! that the view is a function of the words and of its few fields, and that each call does to that view what
//! the trait says. A new space takes one allocation; no other call takes memory.
#![tactic(auto)]

mod holder;
mod plain;
mod words;

pub use plain::Plain;
