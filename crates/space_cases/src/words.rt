//! What the words of a closed space say of its frames.

ghost use Rattle.std.specs.Prelude.{◌≡◌, IfOk};
ghost use Rattle.pt_model.specs.Layout.{input_pages};
ghost use Rattle.pt_model.specs.Words.{IsSpace};
ghost use Rattle.pt_view.specs.Views.{Rests};
ghost use Rattle.pt_closed.specs.Closed.{IsClosed};

use pt_closed::census_of;
use pt_format::Format;
use pt_model::Census;
use pt_num::Memory;
use pt_space::{Pass, Space};

/// How many frames are placed, held and free.
#[derive(Clone, Copy, Debug, PartialEq, Eq)]
pub struct Tags {
    pub placed: u32,
    pub held: u32,
    pub free: u32,
}

/// What the words of a closed space have.
#[derive(Clone, Copy, Debug, PartialEq, Eq)]
pub struct Found {
    /// The counts of tags, where each frame is placed once, or held once, or free.
    pub tags: Option<Tags>,
    pub census: Census,
}

/// Counts tags. None where one is of no form.
pub fn count_tags(tags: &[u64]) -> Option<Tags> {
    let mut placed = 0u32;
    let mut held = 0u32;
    let mut free = 0u32;
    for &tag in tags {
        match tag % 4 {
            2 => placed = placed.wrapping_add(1),
            1 => held = held.wrapping_add(1),
            _ if tag == 0 => free = free.wrapping_add(1),
            _ => return None,
        }
    }
    Some(Tags { placed, held, free })
}

/// How many tags are this one.
fn count_equal(tags: &[u64], tag: u64) -> u32 {
    let mut found = 0u32;
    for &other in tags {
        if other == tag {
            found = found.wrapping_add(1);
        }
    }
    found
}

/// Whether a held frame's tag names another held frame, or none.
fn names_held(tags: &[u64], tag: u64) -> bool {
    if tag == 1 {
        return true;
    }
    match tags.get((tag / 4).wrapping_sub(1) as usize) {
        Some(named) => *named % 4 == 1,
        None => false,
    }
}

/// Whether no two frames are at one position or have one next frame in the purse, and each frame that a held frame's
/// tag names is held.
pub fn is_each_once(tags: &[u64]) -> bool {
    for &tag in tags {
        if tag != 0 && count_equal(tags, tag) != 1 {
            return false;
        }
        if tag % 4 == 1 && !names_held(tags, tag) {
            return false;
        }
    }
    true
}

/// Whether the root's word names a frame that is placed at its level over page 0.
fn is_root_placed(root: u64, tags: &[u64]) -> bool {
    match tags.get((root / 8) as usize) {
        Some(tag) => *tag == root % 8 * 4 + 2,
        None => false,
    }
}

/// The counts of tags of so many frames, where each frame is placed once, or held once, or free.
pub fn tags_in(words: &[u64], frames: u32) -> Option<Tags> {
    let root = *words.get(0)?;
    let tags = words.get(1..1 + frames as usize)?;
    if !is_each_once(tags) || !is_root_placed(root, tags) {
        return None;
    }
    count_tags(tags)
}

/// Closes a space. Its words meet the rule with the one view of the pass, at rest.
pub fn close<F: Format>(space: Space<F>, whole: Pass<F>) -> Result<Vec<u64>, Memory>
    requires space { whole.space ≡ space }
    requires whole { whole.view.count ≡ input_pages F.layout }
    requires rest { Rests F.layout whole.view }
    ensures { IfOk result (λ w. IsClosed F.layout space.frames w.items) }
{
    space.close(whole)
}

/// What the words of a closed space of so many frames have. They are those of a space, so that a walk may go over them.
pub fn find<F: Format>(words: &[u64], frames: u32) -> Found
    requires { IsClosed F.layout frames words.now }
    ensures { IsSpace F.layout words.now }
{
    Found {
        tags: tags_in(words, frames),
        census: census_of::<F>(words, frames),
    }
}
