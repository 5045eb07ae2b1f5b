//! The draw of free frames.

ghost use Rattle.pt_view.specs.Views.{Stays};
ghost use Rattle.std.specs.Prelude.{◌≡◌, ◌==◌, ℕ, ◌+◌, ◌<◌, ◌≤◌};
ghost use Rattle.pt_view.specs.Lists.{AddsFrame, IsIn};
ghost use Rattle.pt_view.specs.Calls.{FillsSpace, HasEveryFrame, Takes};
ghost use Rattle.pt_walk.specs.Walks.{Rests};
ghost use Rattle.pt_sweep.specs.Draws.{FindsAll, Gains, GainsInOrder, OnlyTakes};

use pt_format::Format;
use pt_view::Holder;

/// Tries to take frames, each once, from the first one upward that the holder doesn't know to be taken, until `count`
/// were taken. Answers how many were: they are in front of the purse, which loses none.
///
/// It answers less than `count` only where it tried every such frame: each was then taken by this call, or
/// found not free at a step of it. A holder whose takes are told knows of none, so that each frame is tried.
pub fn draw<F: Format, H: Holder<F>>(holder: &mut H, count: u32) -> u32
    ensures stays { Stays H.space H.aside H.alone holder.old holder.new }
    ensures only { OnlyTakes H.tells (H.view holder.old) (H.view holder.new) }
    ensures rest { Rests F.layout (H.view holder.old) → Rests F.layout (H.view holder.new) }
    ensures most { result ≤ count }
    ensures purse { Gains (H.view holder.old).purse (H.view holder.new).purse result }
    ensures order { GainsInOrder (H.view holder.old).frames (H.view holder.old).purse (H.view holder.new).purse }
    ensures busy { (frame : ℕ) → IsIn (H.view holder.old).busy frame → IsIn (H.view holder.new).busy frame }
    ensures every { result < count → HasEveryFrame (H.view holder.new) }
    ensures told { H.tells → FindsAll (H.view holder.old) (H.view holder.new) (result < count) }
    ensures all { H.alone holder.old → result < count → FillsSpace (H.view holder.new) (H.aside holder.new) }
{
    let mut taken = 0;
    for frame in holder.known_taken()..holder.frames() {
        if taken == count {
            break;
        }
        taken += try_one::<F, H>(holder, frame);
    }
    taken
}

/// Tries to take a frame, and answers how many were taken.
fn try_one<F: Format, H: Holder<F>>(holder: &mut H, frame: u32) -> u32
    requires frame { frame < (H.view holder.old).frames }
    ensures stays { Stays H.space H.aside H.alone holder.old holder.new }
    ensures only { OnlyTakes H.tells (H.view holder.old) (H.view holder.new) }
    ensures rest { Rests F.layout (H.view holder.old) → Rests F.layout (H.view holder.new) }
    ensures one { result ≤ 1 }
    ensures takes { Takes (result == 1) H.tells frame (H.view holder.old) (H.view holder.new) }
    ensures busy { AddsFrame (H.view holder.old).busy (H.view holder.new).busy frame }
    ensures all { H.alone holder.old → HasEveryFrame (H.view holder.new) → FillsSpace (H.view holder.new) (H.aside holder.new) }
{
    if holder.take(frame) { 1 } else { 0 }
}
