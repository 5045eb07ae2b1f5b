//! The census of a closed space, counted over its words alone, and what the manual's walk of these words gives.
//!
//! It stands on the rule of the words (`pt_rule`), on what walks say of a book (`pt_walk`) and on the trait of
//! formats (`pt_format`). It promises that the census is the book's: the levels of the tree, the linked tables, the
//! blocks and the pages that they map. It reads each tag once and each entry of a linked table once, skips the
//! frames that aren't linked, and takes no memory. And it promises that the manual's walk is the book's too.
#![tactic(auto)]

ghost use Rattle.pt_closed.specs.Closed.{WalkIsBook};

mod census;

pub use census::census_of;

/// The manual's walk of the words of a closed space gives at each address the byte and the permission that its book
/// translates it to, and nothing where the book maps nothing or the address has no page.
pub fn walk_is_book()
    ensures { WalkIsBook }
{}
