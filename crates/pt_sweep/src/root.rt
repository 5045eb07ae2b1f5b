//! The raising of the top of a tree that grows.

ghost use Rattle.std.specs.Prelude.{◌+◌};
ghost use Rattle.pt_view.specs.Views.{Stays};
ghost use Rattle.pt_sweep.specs.Raises.{MayRaise, MayRaiseOne, Raises};

use pt_format::Format;
use pt_view::{Holder, Won};

/// Raises the top from the root's table, of a level, until the root is at least of level `top`, with frames of the
/// purse. Answers the root's level then: the path is its table.
///
/// Where another holder raised the top first, its table is used, and the frame stays in the purse.
pub fn raise<F: Format, H: Holder<F>>(holder: &mut H, root: u32, top: u32) -> u32
    requires { MayRaise F.layout (H.view holder.old) root top }
    ensures stays { Stays H.space H.aside H.alone holder.old holder.new }
    ensures raises { Raises F.layout H.tells (H.alone holder.old) (H.view holder.old) (H.view holder.new) root top result }
{
    let mut level = root;
    while level < top {
        level = raise_one::<F, H>(holder, level);
    }
    level
}

/// The same, by one level.
fn raise_one<F: Format, H: Holder<F>>(holder: &mut H, root: u32) -> u32
    requires { MayRaiseOne F.layout (H.view holder.old) root }
    ensures stays { Stays H.space H.aside H.alone holder.old holder.new }
    ensures raises { Raises F.layout H.tells (H.alone holder.old) (H.view holder.old) (H.view holder.new) root (root + 1) result }
{
    holder.place(root + 1, 0);
    match holder.grow() {
        Won::Yes => root + 1,
        Won::Met => {
            holder.unplace();
            holder.root()
        }
    }
}
