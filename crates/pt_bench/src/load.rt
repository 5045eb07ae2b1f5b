//! Loads over any holder: steps by a rule, each a map or an unmap, made one after another; then lookups of their ranges.

ghost use Rattle.std.specs.Prelude.{◌≤◌, IfOk};
ghost use Rattle.pt_view.specs.Views.{Rests};
ghost use Rattle.pt_bench.specs.Spans.{ComesBack, IsTallyOf};

use pt_format::{Format, Prot};
use pt_map::map;
use pt_sweep::unmap;
use pt_view::Holder;
use pt_walk::lookup;

/// The output address from which the outputs go up.
const OUTPUTS: u64 = 1 << 40;

/// A kind of steps. A page is the format's, and a block is what an entry above the lowest table maps.
#[derive(Clone, Copy, Debug, PartialEq, Eq)]
pub enum Load {
    /// Pages that follow each other.
    Pages,
    /// Blocks that follow each other.
    Blocks,
    /// Sixteen pages that follow each other.
    Sixteen,
    /// What a driver maps: a block, a page, sixteen pages, each at a block's range of its own.
    Driver,
    /// Runs of 1 GiB whose outputs are one page off alignment, so that only pages tile them.
    Gigabytes,
    /// Such a run is mapped, and is taken away by the next step.
    UnmapGigabytes,
    /// A page is mapped, and is taken away by the next step.
    Unmap,
    /// A block is mapped, and is taken away by the next step.
    UnmapBlocks,
    /// Pages that follow each other are taken away.
    Away,
    /// What a driver does: the three of `Driver`, and the block of them is taken away.
    Mix,
}

/// What is to be run.
#[derive(Clone, Copy, Debug, PartialEq, Eq)]
pub struct Work {
    pub load: Load,
    pub count: u32,
    pub lookups: bool,
}

/// How many steps were made, and how many of their ranges were then found.
#[derive(Clone, Copy, Debug, PartialEq, Eq)]
pub struct Tally {
    pub made: u32,
    pub found: u32,
}

/// What a step does to its range.
#[derive(Clone, Copy, Debug, PartialEq, Eq)]
enum Act {
    Map,
    Unmap,
}

/// A step: its range in bytes, and where its output begins.
#[derive(Clone, Copy, Debug, PartialEq, Eq)]
struct Step {
    act: Act,
    va: u64,
    pa: u64,
    len: u64,
}

/// The log2 of the bytes of a block.
fn block_bits<F: Format>() -> u32
    ensures { result ≤ 32 }
{
    F::GRANULE + F::INDEX
}

/// The bytes of the range that a driver maps, by its place in the driver's turn.
fn driver_bytes<F: Format>(place: u32) -> u64 {
    match place {
        0 => 1 << block_bits::<F>(),
        1 => 1 << F::GRANULE,
        _ => 16 << F::GRANULE,
    }
}

/// The map of so many bytes at range number `number`, where ranges have `2^bits` bytes, onto those that are
/// `off` bytes from the range's own.
fn map_at(number: u32, bits: u32, len: u64, off: u64) -> Step
    requires { bits ≤ 32 }
{
    let va = u64::from(number) << bits;
    Step {
        act: Act::Map,
        va,
        pa: va.wrapping_add(OUTPUTS).wrapping_add(off),
        len,
    }
}

fn taken_away(step: Step) -> Step {
    Step {
        act: Act::Unmap,
        ..step
    }
}

/// A map where the number is even, and else the unmap of its range.
fn in_turn(number: u32, step: Step) -> Step {
    if number % 2 == 0 {
        step
    } else {
        taken_away(step)
    }
}

/// Step number `number` of a load.
fn step_at<F: Format>(load: Load, number: u32) -> Step {
    let page = 1 << F::GRANULE;
    let bits = block_bits::<F>();
    match load {
        Load::Pages => map_at(number, F::GRANULE, page, 0),
        Load::Away => taken_away(map_at(number, F::GRANULE, page, 0)),
        Load::Blocks => map_at(number, bits, 1 << bits, 0),
        Load::Sixteen => map_at(number, F::GRANULE + 4, 16 << F::GRANULE, 0),
        Load::Driver => map_at(number, bits, driver_bytes::<F>(number % 3), 0),
        Load::Gigabytes => map_at(number, 30, 1 << 30, page),
        Load::UnmapGigabytes => in_turn(number, map_at(number / 2, 30, 1 << 30, page)),
        Load::Unmap => in_turn(number, map_at(number / 2, F::GRANULE, page, 0)),
        Load::UnmapBlocks => in_turn(number, map_at(number / 2, bits, 1 << bits, 0)),
        Load::Mix => match number % 4 {
            3 => taken_away(map_at(number - 3, bits, 1 << bits, 0)),
            place => map_at(number, bits, driver_bytes::<F>(place), 0),
        },
    }
}

/// The same step, so many bytes on.
fn moved_on(step: Step, base: u64) -> Step {
    Step {
        va: step.va.wrapping_add(base),
        ..step
    }
}

/// Makes a step, and answers how many were made: none where it is refused.
fn make_step<F: Format, H: Holder<F>>(holder: &mut H, step: Step) -> u32
    requires rest { Rests F.layout (H.view holder.old) }
    ensures back { ComesBack F.layout H.space H.view holder.old holder.new }
    ensures one { result ≤ 1 }
{
    let Step { act, va, pa, len } = step;
    let made = match act {
        Act::Map => map::<F, H>(holder, va, pa, len, Prot::ReadWrite).is_ok(),
        Act::Unmap => unmap::<F, H>(holder, va, len).is_ok(),
    };
    u32::from(made)
}

/// Looks the first byte of a step's range up, and answers how many were found.
fn find_one<F: Format, H: Holder<F>>(holder: &mut H, step: Step) -> u32
    requires rest { Rests F.layout (H.view holder.old) }
    ensures back { ComesBack F.layout H.space H.view holder.old holder.new }
    ensures one { result ≤ 1 }
{
    match lookup::<F, H>(holder, step.va) {
        Ok(Some(_)) => 1,
        _ => 0,
    }
}

fn make_all<F: Format, H: Holder<F>>(holder: &mut H, base: u64, load: Load, count: u32) -> u32
    requires rest { Rests F.layout (H.view holder.old) }
    ensures back { ComesBack F.layout H.space H.view holder.old holder.new }
    ensures most { result ≤ count }
{
    let mut made = 0;
    for number in 0..count {
        made += make_step::<F, H>(holder, moved_on(step_at::<F>(load, number), base));
    }
    made
}

fn find_all<F: Format, H: Holder<F>>(holder: &mut H, base: u64, load: Load, count: u32) -> u32
    requires rest { Rests F.layout (H.view holder.old) }
    ensures back { ComesBack F.layout H.space H.view holder.old holder.new }
    ensures most { result ≤ count }
{
    let mut found = 0;
    for number in 0..count {
        found += find_one::<F, H>(holder, moved_on(step_at::<F>(load, number), base));
    }
    found
}

/// Makes the steps of a work, whose ranges go up from an address, and looks these up where it is asked for.
pub fn run_work<F: Format, H: Holder<F>>(holder: &mut H, base: u64, work: Work) -> Tally
    requires rest { Rests F.layout (H.view holder.old) }
    ensures back { ComesBack F.layout H.space H.view holder.old holder.new }
    ensures most { IsTallyOf work.count result.made result.found }
{
    let Work {
        load,
        count,
        lookups,
    } = work;
    let made = make_all::<F, H>(holder, base, load, count);
    let found = if lookups {
        find_all::<F, H>(holder, base, load, count)
    } else {
        0
    };
    Tally { made, found }
}
