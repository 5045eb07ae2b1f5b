//! How many frames the spaces have.

ghost use Rattle.std.specs.Prelude.{◌≤◌};
ghost use Rattle.pt_model.specs.Words.{frame_limit};

use pt_format::Format;

/// The frames of a space where the format has as many, all but the root's in the purse.
const FRAMES: u32 = 8192;

/// The frames of a space of this format.
pub fn frames_of<F: Format>() -> u32
    ensures some { 1 ≤ result }
    ensures few { result ≤ frame_limit F.layout }
{
    u32::min(FRAMES, 1 << (27 - F::GRANULE))
}
