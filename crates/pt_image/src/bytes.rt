//! Where the fields of an image stand, in bytes, and how they are read.

ghost use Rattle.std.specs.Prelude.{◌≡◌, ◌+◌, ◌*◌, ◌^◌, ◌<◌, ◌≤◌, length};
ghost use Rattle.pt_model.specs.Words.{frame_limit};
ghost use Rattle.pt_image.specs.Bytes.{entry_at, image_length, number_at};

use byteorder::{ByteOrder, LittleEndian};
use pt_format::Format;

pub(crate) const ROOT: usize = 14;

pub(crate) const ENTRIES: usize = 22;

/// The word in the eight bytes from a place on.
#[tactic(auto, unfolding(crate::specs::Bytes::number_at))]
pub(crate) fn read_u64(bytes: &[u8], at: usize) -> u64
    requires { at + 8 ≤ length bytes.now }
    ensures { result ≡ number_at at 8 bytes.now }
{
    LittleEndian::read_u64(&bytes[at..])
}

/// The word at an entry of a frame.
pub(crate) fn read_entry<F: Format>(image: &[u8], frames: u32, frame: u32, number: u32) -> u64
    requires few { frames ≤ frame_limit F.layout }
    requires a_frame { frame < frames }
    requires an_entry { number < 2 ^ F.layout.index }
    requires long { length image.now ≡ image_length F.layout frames }
    ensures { result ≡ entry_at F.layout image.now frame number }
{
    read_u64(
        image,
        ENTRIES + 8 * (((frame as usize) << F::INDEX) + number as usize),
    )
}
