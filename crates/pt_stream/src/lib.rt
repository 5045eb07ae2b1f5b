//! Bytes in and out, and numbers as text.
//!
//! It stands on `pt_num` for the answer to want of memory, and on `pt_model` for how a number is
//! spelled. A `Source` and a `Sink` are devices that may fail: what one tells of its bytes, and how
//! it counts its faults, is part of its trait, so that code above is proved once for every device.
//! Those in memory can be told to fail; `StdSource` and `StdSink` are over std's readers and
//! writers, of which nothing is known.
//!
//! `read_all` promises all the bytes of an input that isn't too long, and `write_all` that all the
//! bytes were appended, or, where the sink failed, some from the front. A fault is answered only
//! where a device counted one in that call. `read_hex` and `read_dec` accept exactly the one
//! spelling of a number, and `push_hex` and `push_dec` append it; `push_hex_behind`, `push_dec_behind`
//! and `push_census` append words and numbers in turn. A `Line` is a short text of words and numbers
//! that is made where it stands and appended by one copy.
#![tactic(auto)]

mod counts;
mod device;
mod line;
mod memory;
mod numbers;
mod standard;
mod whole;

pub use counts::{push_census, push_dec_behind, push_hex_behind};
pub use device::{Failed, Sink, Source};
pub use line::Line;
pub use memory::{MemorySink, MemorySource, SureSource};
pub use numbers::{one_number, push_dec, push_hex, read_dec, read_hex};
pub use standard::{StdSink, StdSource};
pub use whole::{ReadError, read_all, write_all};

#[cfg(test)]
mod tests;
