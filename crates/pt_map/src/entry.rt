//! What of an extent lies under one entry.

ghost use Rattle.std.specs.Prelude.{◌≡◌, ◌+◌, ◌*◌, ◌/◌, ◌^◌, ◌<◌, ◌≤◌, IsTrue, min};
ghost use Rattle.pt_tile.specs.Extents as extents;
ghost use Rattle.pt_tile.specs.Extents.{IsExtent};
ghost use Rattle.pt_map.specs.Stands.{IsEntryExtent};

use pt_format::Format;
use pt_tile::Extent;
use pt_walk::{entry_bits, entry_end};

/// What of an extent lies under the entry over its first page, in a table of this level.
pub(crate) fn under_entry<F: Format>(level: u32, extent: Extent) -> Extent
    requires extent { IsExtent F.layout extent }
    requires level { level < F.layout.levels }
    ensures { result ≡ extents.under_entry F.layout level extent }
{
    extent.up_to(entry_end::<F>(level, extent.first))
}

/// Whether an extent lies under one entry of a table of this level, and has fewer pages than that.
#[inline(always)]
pub(crate) fn is_under_one<F: Format>(level: u32, extent: Extent) -> bool
    requires extent { IsExtent F.layout extent }
    requires level { level < F.layout.levels }
    ensures { IsTrue result → IsEntryExtent F.layout extent level }
{
    if extent.end - extent.first >= 1 << entry_bits::<F>(level) {
        return false;
    }
    extent.end <= entry_end::<F>(level, extent.first)
}
