//! The entries on the way to a page.

ghost use Rattle.std.specs.Prelude.{◌≡◌, ◌↔◌, ◌+◌, ◌*◌, ◌^◌, ◌<◌, ◌≤◌, IsTrue, min};
ghost use Rattle.pt_model.specs.Layout.{input_pages, pages_of_table};
ghost use Rattle.pt_view.specs.Pieces as pieces;

use pt_format::Format;

/// The log2 of the pages under an entry of a table. A page has 52 bits at most, so 63 stands for all
/// that is more.
pub fn entry_bits<F: Format>(level: u32) -> u32
    requires { level ≤ F.layout.levels }
    ensures { result ≡ min (F.layout.index * level) 63 }
{
    u32::min(F::INDEX * level, 63)
}

/// The number of the entry at which the way to a page goes on, in a table of this level.
pub fn entry_number<F: Format>(level: u32, page: u64) -> u32
    requires a_level { level < F.layout.levels }
    requires a_page { page < input_pages F.layout }
    ensures number { result ≡ pieces.entry_number F.layout level page }
    ensures within { result < 2 ^ F.layout.index }
{
    let entry = page >> entry_bits::<F>(level);
    (entry & ((1 << F::INDEX) - 1)) as u32
}

/// Whether a page is one of those under the table of a level at page 0.
pub(crate) fn is_under_spine<F: Format>(level: u32, page: u64) -> bool
    requires a_level { level < F.layout.levels }
    requires a_page { page < input_pages F.layout }
    ensures { IsTrue result ↔ (page < pages_of_table F.layout level) }
{
    page >> entry_bits::<F>(level + 1) == 0
}

/// The page after the last one under the spine's table of a level; 2^63 where that is more.
pub fn spine_end<F: Format>(level: u32) -> u64
    requires { level < F.layout.levels }
    ensures { result ≡ min (pages_of_table F.layout level) (2 ^ 63) }
{
    1 << entry_bits::<F>(level + 1)
}
