//! Images: the words of a space as bytes that nobody vouches for, and the check that they are tables.
//!
//! It stands on shared words (`pt_space`), on the rule of the words (`pt_rule`), on the numbers of walks (`pt_walk`) and on
//! the trait of formats (`pt_format`). `check` walks the tables of an image once, from the root, and copies each entry that it
//! accepts into words that meet the rule at every step.
//!
//! Promised: the words that it answers have the image's root and entries, and meet the rule with one view of the whole space,
//! at rest, that holds no frame, for the header's frames and levels, whatever the image's bytes are; so a space is resumed from
//! them (`pt_space::Space::resume`), and its book is the image's (`specs/Books.antt`). They are answered only for a good image,
//! and the image of a closed space is one (`resting_words_make_a_good_image`). Otherwise the fault that is named is the image's
//! first: entries are visited from the root's table by index, and a pointer's table right after its entry (`specs/Order.antt`);
//! what is wrong with an entry, and in which order, `specs/Faults.antt` says of the image's bytes alone. `read_header` answers an
//! image's own header, or the first fault of it (`specs/Headers.antt`), and `image_of` the image of the words of a space, byte
//! for byte.
#![tactic(auto)]

mod block;
mod bytes;
mod checking;
mod closed;
mod fault;
mod header;
mod saving;
mod table;
mod walk;

pub use checking::check;
pub use closed::resting_words_make_a_good_image;
pub use fault::{CheckRefused, EntryFault, ImageFault};
pub use header::{Header, read_header};
pub use saving::image_of;
