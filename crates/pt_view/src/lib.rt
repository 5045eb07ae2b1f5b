//! What a holder of a range of pages knows of its space, and the trait of holders.
//!
//! It stands on the trait of formats and on the definitions. A view is what one holder knows: the book
//! of its range, its purse of frames, its path of tables, and what it found on the way. The trait says
//! of each call what it does to the view, in clauses that a holder of shared words can keep whatever
//! other holders do between its steps. Code over any holder is proved once, from these clauses alone.
#![tactic(auto)]

mod holder;
mod view;

pub use holder::{Holder, Seen, Won};
pub use pt_model::Position;
pub use view::{Absence, Change, Node, Piece, Prepared, View};
