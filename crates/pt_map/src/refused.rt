//! Why a map is refused.

/// Why a range is not mapped, in the order in which the causes are tested.
#[derive(Clone, Copy, Debug, PartialEq, Eq)]
pub enum MapRefused {
    /// An address or the length is not of whole pages, or the length is 0.
    Misaligned,
    /// The input range is not inside the span.
    OutsideLease,
    /// The output range ends past the output addresses of the format.
    OutputRange,
    /// The book maps a page of the range; the input address of the lowest one, in bytes.
    Occupied { address: u64 },
    /// Loads found so many needed tables absent, and the purse has `held` frames, which are fewer.
    NoFrames { absent: u64, held: u32 },
}
