//! The calls of a holder, by plain reads and writes.

ghost use Rattle.std.specs.Prelude.{◌≡◌, ℕ, ◌<◌, [], ◌∷◌, length};
ghost use Rattle.pt_view.specs.Calls.{IsFreed};

use crate::plain::Plain;
use crate::words::{
    entry, is_zero_run, root_frame, root_level, set_entry, set_root, set_run, tag_of, taken_upto,
    zero_run,
};
use pt_format::Format;
use pt_num::Span;
use pt_view::{Holder, Seen, Won};
use pt_words::{frame_address, frame_named, held_word, next_in, placed_word, set_tag};

impl<F: Format> Plain<F> {
    /// Frees the first frame of the purse.
    fn free_first(&mut self)
        requires { 0 < length self.old.view.purse }
        ensures freed { (frame : ℕ) × IsFreed ⊥ (frame ∷ []) self.old.view self.new.view }
        ensures aside { self.new.aside ≡ self.old.aside }
    {
        let Some(frame) = self.head else {
            unreachable!()
        };
        let next = next_in(tag_of(&self.words, frame));
        set_tag(&mut self.words, frame, 0);
        self.head = next;
        self.held -= 1;
        self.taken_below = u32::min(self.taken_below, frame);
    }
}

impl<F: Format> Holder<F> for Plain<F> {
    type Space = ();

    ghost space = { λ p. tt };

    ghost view = { λ p. p.view };

    ghost aside = { λ p. p.aside };

    ghost tells = { ⊥ };

    ghost alone = { λ p. Unit {0} };

    #[inline(always)]
    fn root(&mut self) -> u32 {
        let root = self.words[0];
        let level = root_level::<F>(root);
        self.path[level as usize] = root_frame(root);
        self.level = level;
        level
    }

    #[inline(always)]
    fn enter(&mut self, number: u32) -> Seen {
        let level = self.level;
        let frame = self.path[level as usize];
        let word = entry::<F>(&self.words, self.frames, frame, number);
        if word == 0 {
            return Seen::Empty;
        }
        if F::is_leaf(level, word) {
            return Seen::Leaf(word);
        }
        self.path[level as usize - 1] = frame_named::<F>(F::address_of(level, word));
        self.level = level - 1;
        Seen::Entered
    }

    fn empty_run(&mut self, first: u32, count: u32) -> bool {
        let frame = self.path[self.level as usize];
        is_zero_run::<F>(&self.words, self.frames, frame, first, count)
    }

    #[inline(always)]
    fn leave(&mut self) {
        self.level += 1;
    }

    fn place(&mut self, level: u32, base: u64) {
        let Some(frame) = self.head else {
            unreachable!()
        };
        let next = next_in(tag_of(&self.words, frame));
        set_tag(&mut self.words, frame, placed_word(level, base));
        self.head = next;
        self.held -= 1;
        self.prepared = Some(frame);
    }

    fn unplace(&mut self) {
        let Some(prepared) = self.prepared else {
            unreachable!()
        };
        set_tag(&mut self.words, prepared, held_word(self.head));
        self.head = Some(prepared);
        self.held += 1;
        self.prepared = None;
    }

    fn install(&mut self, number: u32) -> Won {
        let level = self.level;
        let parent = self.path[level as usize];
        let found = entry::<F>(&self.words, self.frames, parent, number);
        if found != 0 {
            self.path[level as usize - 1] = frame_named::<F>(F::address_of(level, found));
            self.level = level - 1;
            return Won::Met;
        }
        let Some(frame) = self.prepared else {
            unreachable!()
        };
        let word = F::table_word(level, frame_address::<F>(frame));
        set_entry::<F>(&mut self.words, self.frames, parent, number, word);
        self.prepared = None;
        self.path[level as usize - 1] = frame;
        self.level = level - 1;
        Won::Yes
    }

    fn grow(&mut self) -> Won {
        let level = self.level;
        let old = self.path[level as usize];
        let Some(frame) = self.prepared else {
            unreachable!()
        };
        let bridge = F::table_word(level + 1, frame_address::<F>(old));
        set_entry::<F>(&mut self.words, self.frames, frame, 0, bridge);
        set_root(&mut self.words, frame, level + 1);
        self.prepared = None;
        self.path[level as usize + 1] = frame;
        self.level = level + 1;
        Won::Yes
    }

    #[inline(always)]
    fn write(&mut self, number: u32, word: u64) {
        let frame = self.path[self.level as usize];
        set_entry::<F>(&mut self.words, self.frames, frame, number, word);
    }

    fn write_run(&mut self, first: u32, count: u32, word: u64, step: u64) {
        let frame = self.path[self.level as usize];
        set_run::<F>(
            &mut self.words,
            self.frames,
            frame,
            first,
            count,
            word,
            step,
        );
    }

    #[inline(always)]
    fn clear(&mut self, number: u32) {
        let frame = self.path[self.level as usize];
        set_entry::<F>(&mut self.words, self.frames, frame, number, 0);
    }

    fn clear_run(&mut self, first: u32, count: u32) -> u32 {
        let frame = self.path[self.level as usize];
        zero_run::<F>(&mut self.words, self.frames, frame, first, count)
    }

    fn unlink(&mut self, number: u32) {
        let level = self.level;
        let parent = self.path[level as usize];
        let linked = entry::<F>(&self.words, self.frames, parent, number);
        let child = frame_named::<F>(F::address_of(level, linked));
        set_entry::<F>(&mut self.words, self.frames, parent, number, 0);
        set_tag(&mut self.words, child, held_word(self.head));
        self.head = Some(child);
        self.held += 1;
    }

    fn take(&mut self, frame: u32) -> bool {
        self.taken_below = taken_upto(self.taken_below, frame);
        if tag_of(&self.words, frame) != 0 {
            return false;
        }
        set_tag(&mut self.words, frame, held_word(self.head));
        self.head = Some(frame);
        self.held += 1;
        true
    }

    fn release(&mut self) {
        for _ in 0..self.held {
            self.free_first();
        }
    }

    fn known_taken(&self) -> u32 {
        self.taken_below
    }

    fn purse(&self) -> u32 {
        self.held
    }

    fn frames(&self) -> u32 {
        self.frames
    }

    fn levels(&self) -> u32 {
        self.levels
    }

    fn range(&self) -> Span {
        // A look at a field, which costs nothing: what holds of the fields is known from there on.
        let _ = &self.words;
        Span {
            first: 0,
            count: 1 << (F::INPUT - F::GRANULE),
        }
    }
}
