//! The book machine as plain data: the blocks of a space and the positions of its tables in lists, and each
//! call computed as its definition says. It is slow on purpose, has no tree and no words, and is there for
//! tests, which hold the replies of the program against its answers.
//!
//! It stands on the trait of formats, on the tilings and on the definitions. It promises that each call
//! answers as the book machine does and changes the book as it does, and that it says exactly when frames
//! lack for a map. A space may start with any number of levels that its format allows.
#![tactic(auto)]

mod list_book;
mod lists;
mod tables;

pub use list_book::ListBook;
