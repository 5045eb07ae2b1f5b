//! The way down to the leaf over a page, and back.

ghost use Rattle.pt_view.specs.Views.{Stays};
ghost use Rattle.std.specs.Prelude.{◌≡◌, []};
ghost use Rattle.pt_walk.specs.Walks.{FindsBelow, FindsOver, IsAsked, IsGoing, WentDown};
ghost use Rattle.pt_view.specs.Loads.{ByLoads};

use crate::climb;
use crate::numbers::{entry_number, is_under_spine};
use pt_format::Format;
use pt_view::{Holder, Seen};

/// The word of a leaf, and the level of the table in which it stands.
#[derive(Clone, Copy, Debug, PartialEq, Eq)]
pub(crate) struct Leaf {
    pub(crate) level: u32,
    pub(crate) word: u64,
}

/// Where the way to a page ends: the level of the lowest table, and the word of the entry there, which is
/// the leaf's, or zero. (Two numbers are handed back in registers, and then the way down is a loop.)
#[derive(Clone, Copy, Debug, PartialEq, Eq)]
pub(crate) struct Lowest {
    level: u32,
    word: u64,
}

/// Goes down the way to a page to its end, from the path's last table, of this level.
fn go_down<F: Format, H: Holder<F>>(holder: &mut H, page: u64, level: u32) -> Lowest
    requires going { IsGoing F.layout (H.view holder.old) page level }
    ensures stays { Stays H.space H.aside H.alone holder.old holder.new }
    ensures walked { ByLoads H.tells (H.view holder.old) (H.view holder.new) }
    ensures down { WentDown F.layout (H.view holder.old) (H.view holder.new) page level result.level }
    ensures found { FindsBelow F.layout (H.view holder.old) page level result.level result.word }
{
    match holder.enter(entry_number::<F>(level, page)) {
        Seen::Empty => Lowest { level, word: 0 },
        Seen::Leaf(word) => Lowest { level, word },
        Seen::Entered => go_down::<F, H>(holder, page, level - 1),
    }
}

/// The leaf over a page of the span.
pub(crate) fn leaf_over<F: Format, H: Holder<F>>(holder: &mut H, page: u64) -> Option<Leaf>
    requires rest { (H.view holder.old).path ≡ [] }
    requires asked { IsAsked F.layout (H.view holder.old) page }
    ensures stays { Stays H.space H.aside H.alone holder.old holder.new }
    ensures walked { ByLoads H.tells (H.view holder.old) (H.view holder.new) }
    ensures rest { (H.view holder.new).path ≡ [] }
    ensures found { FindsOver F.layout (H.view holder.old) page result }
{
    let level = holder.root();
    if !is_under_spine::<F>(level, page) {
        holder.leave();
        return None;
    }
    let lowest = go_down::<F, H>(holder, page, level);
    climb::<F, H>(holder, level - lowest.level + 1);
    if lowest.word == 0 {
        None
    } else {
        Some(Leaf {
            level: lowest.level,
            word: lowest.word,
        })
    }
}
