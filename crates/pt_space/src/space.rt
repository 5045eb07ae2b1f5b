//! The shared words.

ghost use Rattle.std.specs.Prelude.{◌≡◌, ℕ, ◌+◌, ◌<◌, ◌≤◌, ◌∷◌, [], length, IfOk};
ghost use Rattle.pt_model.specs.Layout.{input_pages};
ghost use Rattle.pt_model.specs.Words as words_are;
ghost use Rattle.pt_model.specs.Words.{frame_limit};
ghost use Rattle.pt_rule.specs.Lawful.{Lawful};
ghost use Rattle.pt_rule.specs.Opening.{opening_view};
ghost use Rattle.pt_view.specs.Views.{Rests};
ghost use Rattle.pt_space.specs.Saved.{SaysItsView, saved_view};
ghost use Rattle.std.specs.Slots.{slots_items, slots_len, IsFull};

use crate::lease::Lease;
use crate::pass::Pass;
use crate::sound::Sound;
use atomic_table::{Closed, Table, TableRule};
use pt_format::Format;
use pt_num::Memory;
use pt_view::View;
use pt_words::{first_frame, new_words};
use std::alloc::Global;
use std::marker::{Model, PhantomData};

/// What the table is told when it is made: its words, the frames of the space, the levels that its tree starts with, and
/// how many frames its first view holds, which are those from frame 1 on.
#[derive(Drop)]
pub struct Opening {
    pub words: Vec<u64>,
    pub frames: u32,
    pub levels: u32,
    pub hold: u32,
}

/// The rule of the words: it holds between any two steps.
pub struct Rule<F: Format> {
    format: PhantomData<F>,
}

impl<F: Format> TableRule<(), View, Opening> for Rule<F> {
    ghost use Rattle.pt_rule.specs.Lawful.{Lawful};
    ghost use Rattle.pt_space.specs.Saved.{saved_view};

    ghost holds = { λ key s. Lawful F.layout key.frames key.levels s.words s.views };

    ghost first = { λ key. saved_view F.layout key.frames key.levels key.hold key.words.items };
}

/// Words that several holders change at once.
pub struct Space<F: Format> {
    pub(crate) table: Table<(), View, Opening, Rule<F>, Global>,
    pub(crate) frames: u32,
    pub(crate) levels: u32,
    pub(crate) alloc: Global,
    pub(crate) format: PhantomData<F>,
}

impl<F: Format> Model for Space<F> {
    ghost use Rattle.pt_space.specs.Standing.{SpaceId, IsSpaceOf};

    ghost Value = { SpaceId };

    ghost view = { λ s. record { table = s.table.shared.table_id; frames = s.table.shared.key.frames; levels = s.table.shared.key.levels } };

    ghost invariant = { λ s. IsSpaceOf F.layout s.table.shared.table_id s.table.shared.key.frames s.table.shared.key.levels s.frames s.levels };
}

impl<F: Format> Space<F> {
    /// A new space of so many frames, which maps nothing, and the pass of all of it.
    pub fn make(
        alloc: Global,
        frames: u32,
        levels: u32,
        hold: u32,
    ) -> Result<(Space<F>, Pass<F>), Memory>
        requires some { 1 ≤ frames }
        requires few { frames ≤ frame_limit F.layout }
        requires hold { hold < frames }
        requires low { F.layout.start ≤ levels }
        requires high { levels ≤ F.layout.levels }
        ensures space { IfOk result (λ r. (r.1.space ≡ r.0) × (r.0.frames ≡ frames) × (r.0.levels ≡ levels)) }
        ensures view { IfOk result (λ r. r.1.view ≡ opening_view F.layout frames levels hold) }
    {
        let words = new_words::<F>(alloc, frames, levels, hold)?;
        Space::begin(
            alloc,
            Opening {
                words,
                frames,
                levels,
                hold,
            },
        )
    }

    /// The space of words that nobody shares yet. On `Memory` they are given up.
    pub fn resume(alloc: Global, sound: Sound<F>) -> Result<(Space<F>, Pass<F>), Memory>
        ensures space { IfOk result (λ r. (r.1.space ≡ r.0) × (r.0.frames ≡ sound.frames) × (r.0.levels ≡ sound.levels)) }
        ensures view { IfOk result (λ r. r.1.view ≡ saved_view F.layout sound.frames sound.levels 0 sound.words) }
        ensures rest { IfOk result (λ r. Rests F.layout r.1.view) }
        ensures lawful { IfOk result (λ r. Lawful F.layout sound.frames sound.levels sound.words (r.1.view ∷ [])) }
    {
        let Sound {
            words,
            frames,
            levels,
            format: _,
        } = sound;
        Space::begin(
            alloc,
            Opening {
                words,
                frames,
                levels,
                hold: 0,
            },
        )
    }

    /// The space of these words, and the pass of all of it.
    fn begin(alloc: Global, about: Opening) -> Result<(Space<F>, Pass<F>), Memory>
        requires lawful { SaysItsView F.layout about.frames about.levels about.hold about.words.items }
        ensures space { IfOk result (λ r. (r.1.space ≡ r.0) × (r.0.frames ≡ about.frames) × (r.0.levels ≡ about.levels)) }
        ensures view { IfOk result (λ r. r.1.view ≡ saved_view F.layout about.frames about.levels about.hold about.words.items) }
    {
        let (table, seat) = Table::of_words(alloc, about.words.as_slice(), &about)?;
        let Opening {
            words: _,
            frames,
            levels,
            hold,
        } = about;
        let space = Space {
            table,
            frames,
            levels,
            alloc,
            format: PhantomData,
        };
        let pass = Pass {
            seat,
            frames,
            levels,
            first: 0,
            count: 1 << (F::INPUT - F::GRANULE),
            head: first_frame(hold),
            held: hold,
            format: PhantomData,
        };
        Ok((space, pass))
    }

    /// The pass in use.
    pub fn lease(&self, pass: Pass<F>) -> Lease<'_, F>
        requires { pass.space ≡ self.now }
        ensures { result ≡ pass }
    {
        let Pass {
            seat,
            frames: _,
            levels: _,
            first,
            count,
            head,
            held,
            format: _,
        } = pass;
        Lease {
            space: self,
            seat,
            first,
            count,
            head,
            held,
            path: [0; 8],
            depth: 0,
            level: 0,
            prepared: None,
        }
    }

    /// The words at the end. They meet the rule with the one view of the pass.
    pub fn close(self, whole: Pass<F>) -> Result<Vec<u64>, Memory>
        requires space { whole.space ≡ self }
        requires whole { whole.view.count ≡ input_pages F.layout }
        ensures { IfOk result (λ w. Lawful F.layout self.frames self.levels w.items (whole.view ∷ [])) }
    {
        let Space {
            table,
            frames: _,
            levels: _,
            alloc,
            format: _,
        } = self;
        let Pass {
            seat,
            frames: _,
            levels: _,
            first: _,
            count: _,
            head: _,
            held: _,
            format: _,
        } = whole;
        let count = table.word_count();
        let closed = table.close_with(seat);
        let words = copy_words(alloc, &closed, count);
        closed.free();
        words
    }
}

/// The words of a closed table.
fn copy_words(alloc: Global, closed: &Closed<(), Global>, count: usize) -> Result<Vec<u64>, Memory>
    requires { (count ≡ slots_len closed.now.words) × IsFull closed.now.words × (length (slots_items closed.now.words) ≡ count) }
    ensures { IfOk result (λ w. w.items ≡ slots_items closed.now.words) }
{
    let mut words = Vec::with_capacity(alloc, count)?;
    for i in 0..count {
        words.push_reserved(closed.word(i));
    }
    Ok(words)
}
