//! The addresses of frames.

ghost use Rattle.std.specs.Prelude.{◌≤◌, ◌↔◌, IsTrue};
ghost use Rattle.pt_format.specs.Words.{IsFrameAddress};

use pt_num::is_aligned;

/// Whether an address is that of a frame.
pub fn is_frame_address(granule: u32, address: u64) -> bool
    requires low { 12 ≤ granule }
    requires high { granule ≤ 16 }
    ensures { IsTrue result ↔ IsFrameAddress granule address }
{
    const FRAMES: u64 = 1 << 32;
    if address < FRAMES {
        return false;
    }
    let offset = address - FRAMES;
    is_aligned(offset, granule) && offset >> granule < 1 << (27 - granule)
}
