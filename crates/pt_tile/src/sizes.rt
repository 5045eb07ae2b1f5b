//! The block sizes of a format.

ghost use Rattle.std.specs.Prelude.{◌≡◌, ℕ, ◌+◌, ◌%◌, ◌^◌, ◌<◌, ◌≤◌, ◌↔◌, IsTrue, IsBitSet, IfSome};
ghost use Rattle.pt_model.specs.Layout.{is_size};
ghost use Rattle.pt_tile.specs.Sizes.{HasAllSizes, IsLeastFrom, IsLarger};

use pt_format::Format;

/// In bit `k` whether the format has blocks of `2^k` pages.
pub fn all_sizes<F: Format>() -> u64
    ensures { HasAllSizes F.layout result }
{
    let mut sizes = 0;
    for level in 0..F::LEVELS {
        sizes |= F::sizes(level);
    }
    sizes
}

/// The least size of a mask from `least` on, if there is one.
pub fn size_from(sizes: u64, least: u32) -> Option<u32>
    ensures { IsLeastFrom sizes least result }
{
    if least >= 64 {
        return None;
    }
    let above = sizes >> least;
    if above == 0 {
        None
    } else {
        Some(least + above.trailing_zeros())
    }
}

/// Whether two pages lie alike in runs of `2^log2` pages.
fn lie_alike(page: u64, other: u64, log2: u32) -> bool
    requires { log2 < 64 }
    ensures { IsTrue result ↔ (page % 2 ^ log2 ≡ other % 2 ^ log2) }
{
    let inside = (1 << log2) - 1;
    page & inside == other & inside
}

/// The least size from `2^log2` pages on by which blocks can take up a part of a range.
pub fn larger_size<F: Format>(first: u64, out: u64, sizes: u64, log2: u32) -> Option<u32>
    requires { HasAllSizes F.layout sizes }
    ensures least { IsLarger F.layout log2 first out result }
    ensures small { IfSome result (λ size. size < 64) }
{
    let size = size_from(sizes, log2)?;
    if lie_alike(first, out, size) {
        Some(size)
    } else {
        None
    }
}
