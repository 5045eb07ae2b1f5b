//! Calls over leases at rest.

ghost use Rattle.std.specs.Prelude.{IsTrue};
ghost use Rattle.pt_model.specs.declared.block.Prot.{Prot};
ghost use Rattle.pt_view.specs.Views.{Rests};
ghost use Rattle.space_cases.specs.Handing.{IsHandedBack};

use pt_format::{Format, Prot};
use pt_map::map;
use pt_space::Lease;
use pt_sweep::unmap;
use pt_view::Holder;

/// The bytes of a page.
const PAGE: u64 = 0x1000;

/// A call over a lease at rest.
#[derive(Clone, Copy, Debug, PartialEq, Eq)]
pub enum Call {
    /// Tries to take a frame of the space.
    Take { frame: u32 },
    /// Frees every frame of the purse.
    Release,
    /// Maps a page, to the page of the same number.
    Map { page: u64 },
    /// Unmaps so many pages, and unlinks the tables of that range.
    Unmap { first: u64, count: u64 },
}

/// Makes a call.
pub fn make<F: Format>(lease: &mut Lease<'_, F>, call: Call)
    requires rest { Rests F.layout lease.old.view }
    requires stated { IsTrue (F.layout.states Prot.Read) }
    ensures { IsHandedBack F.layout lease.old lease.new }
{
    match call {
        Call::Take { frame } => {
            if frame < lease.frames() {
                lease.take(frame);
            }
        }
        Call::Release => lease.release(),
        Call::Map { page } => {
            let at = page.wrapping_mul(PAGE);
            let _mapped = map(lease, at, at, PAGE, Prot::Read);
        }
        Call::Unmap { first, count } => {
            let _gone = unmap(lease, first.wrapping_mul(PAGE), count.wrapping_mul(PAGE));
        }
    }
}

/// Makes the call of this number, counted from 0, if there is one. Answers the next number.
fn make_next<F: Format>(lease: &mut Lease<'_, F>, calls: &[Call], number: usize) -> usize
    requires rest { Rests F.layout lease.old.view }
    requires stated { IsTrue (F.layout.states Prot.Read) }
    ensures { IsHandedBack F.layout lease.old lease.new }
{
    if let Some(call) = calls.get(number) {
        make(lease, *call);
    }
    number.wrapping_add(1)
}

/// Goes through an order of eight calls of two leases: those of the left one are the ones of its bits.
pub fn make_in_order<F: Format>(
    left: &mut Lease<'_, F>,
    right: &mut Lease<'_, F>,
    calls: (&[Call], &[Call]),
    order: u32,
)
    requires left { Rests F.layout left.old.view }
    requires right { Rests F.layout right.old.view }
    requires stated { IsTrue (F.layout.states Prot.Read) }
    ensures left { IsHandedBack F.layout left.old left.new }
    ensures right { IsHandedBack F.layout right.old right.new }
{
    let mut made = 0;
    let mut other = 0;
    for place in 0..8u32 {
        if order >> place & 1 == 1 {
            made = make_next(left, calls.0, made);
        } else {
            other = make_next(right, calls.1, other);
        }
    }
}
