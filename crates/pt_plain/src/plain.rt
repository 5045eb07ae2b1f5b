//! The words of one owner, and how they begin and end.

ghost use Rattle.std.specs.Prelude.{◌≡◌, ℕ, ◌+◌, ◌^◌, ◌<◌, ◌≤◌, [], ◌∷◌, length, IfOk, Some, None, slice_index};
ghost use Rattle.pt_model.specs.Layout.{input_pages};
ghost use Rattle.pt_model.specs.Words.{frame_limit, tag};
ghost use Rattle.pt_rule.specs.Lawful.{Lawful};
ghost use Rattle.pt_rule.specs.Opening.{IsNew};
ghost use Rattle.pt_plain.specs.Owner.{IsOpened, none_aside};
ghost use Rattle.pt_view.specs.Views.{Rests};

use pt_format::Format;
use pt_num::Memory;
use pt_words::{first_frame, new_words};
use std::alloc::Global;
use std::marker::{Model, PhantomData};

/// The words of one owner, who holds the whole space. Contracts see the words, the view of its span, and what it has
/// set aside outside.
#[derive(Drop)]
pub struct Plain<F: Format> {
    pub(crate) words: Vec<u64>,
    pub(crate) frames: u32,
    pub(crate) levels: u32,
    /// The first frame of the purse, and the number of its frames.
    pub(crate) head: Option<u32>,
    pub(crate) held: u32,
    /// The frame of the table of each level of the path, from the root's level down to `level`. The path is
    /// empty where `level` is the one above the root's.
    pub(crate) path: [u32; 8],
    pub(crate) level: u32,
    pub(crate) prepared: Option<u32>,
    /// No frame below it is free, so that a draw begins there.
    pub(crate) taken_below: u32,
    pub(crate) format: PhantomData<F>,
}

impl<F: Format> Model for Plain<F> {
    ghost use Rattle.pt_plain.specs.Owner.{Owned, whole_fields, owned, IsOwner};

    ghost Value = { Owned };

    ghost view = { λ p.
        owned F.layout (whole_fields F.layout p.words.items p.frames p.levels p.head p.held p.path p.level p.prepared p.taken_below) };

    ghost invariant = { λ p.
        IsOwner F.layout (whole_fields F.layout p.words.items p.frames p.levels p.head p.held p.path p.level p.prepared p.taken_below) };
}

impl<F: Format> Plain<F> {
    /// A new space of so many frames, which maps nothing. Frame 0 is the root's table, the frames from 1 to
    /// `hold` are in the purse, and the others are free. `Memory` where there is none for its words.
    pub fn make(alloc: Global, frames: u32, levels: u32, hold: u32) -> Result<Plain<F>, Memory>
        requires some { 1 ≤ frames }
        requires few { frames ≤ frame_limit F.layout }
        requires hold { hold < frames }
        requires low { F.layout.start ≤ levels }
        requires high { levels ≤ F.layout.levels }
        ensures words { IfOk result (λ p. IsNew F.layout frames levels hold p.words) }
        ensures opened { IfOk result (λ p. IsOpened F.layout frames levels hold p.view) }
        ensures aside { IfOk result (λ p. p.aside ≡ none_aside) }
    {
        let words = new_words::<F>(alloc, frames, levels, hold)?;
        Ok(Plain {
            words,
            frames,
            levels,
            head: first_frame(hold),
            held: hold,
            path: [0; 8],
            level: levels,
            prepared: None,
            taken_below: 0,
            format: PhantomData,
        })
    }

    /// The words of an owner at rest. They meet the rule with its one view.
    pub fn close(self) -> Vec<u64>
        requires { Rests F.layout self.view }
        ensures words { result.items ≡ self.words }
        ensures lawful { Lawful F.layout self.view.frames self.view.levels result.items (self.view ∷ []) }
        ensures whole { self.view.count ≡ input_pages F.layout }
    {
        let Plain {
            words,
            frames: _,
            levels: _,
            head: _,
            held: _,
            path: _,
            level: _,
            prepared: _,
            taken_below: _,
            format: _,
        } = self;
        words
    }
}
