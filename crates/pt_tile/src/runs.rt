//! Runs of equal blocks in a tiling.

ghost use Rattle.std.specs.Prelude.{◌≡◌, ℕ, ◌+◌, ◌-◌, ◌*◌, ◌%◌, ◌^◌, ◌<◌, ◌≤◌, ◌≢◌, ◌++◌};
ghost use Rattle.pt_model.specs.declared.block.Prot.{Prot};
ghost use Rattle.pt_model.specs.Layout.{input_pages, output_pages};
ghost use Rattle.pt_model.specs.Tiling.{greatest_size, tiling};
ghost use Rattle.pt_tile.specs.Sizes.{HasAllSizes};
ghost use Rattle.pt_tile.specs.Runs.{run_blocks, IsRunEnd};

use crate::sizes::larger_size;
use pt_format::Format;
use pt_num::align_down;

/// How many blocks of `2^log2` pages, the first one's size, follow each other at the front of a tiling
/// at least: as many as there are up to the next place at which a greater block could begin, or to the
/// end. `sizes` are the format's, as `all_sizes` gives them.
pub fn run_length<F: Format>(first: u64, out: u64, left: u64, log2: u32, sizes: u64) -> u64
    requires some { left ≢ 0 }
    requires in_input { first + left ≤ input_pages F.layout }
    requires in_output { out + left ≤ output_pages F.layout }
    requires sizes { HasAllSizes F.layout sizes }
    requires first { log2 ≡ greatest_size F.layout first out left }
    ensures some { 1 ≤ result }
    ensures within { result * 2 ^ log2 ≤ left }
    ensures run { (prot : Prot)
        → tiling F.layout prot first out left
        ≡ run_blocks result log2 prot first out
        ++ tiling F.layout prot (first + result * 2 ^ log2) (out + result * 2 ^ log2) (left - result * 2 ^ log2) }
    ensures ends { IsRunEnd F.layout first out left log2 result }
{
    let fitting = left >> log2;
    match larger_size::<F>(first, out, sizes, log2 + 1) {
        None => fitting,
        Some(size) => {
            let next = align_down(first, size) + (1 << size);
            fitting.min((next - first) >> log2)
        }
    }
}
