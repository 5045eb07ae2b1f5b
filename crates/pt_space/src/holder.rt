//! The calls of a holder, by single steps of the shared words.

ghost use Rattle.std.specs.Prelude.{◌≡◌, ℕ, ◌+◌, ◌<◌, ◌%◌, ◌^◌, false, length, [], ◌∷◌};
ghost use Rattle.pt_model.specs.declared.position.Position.{Position};
ghost use Rattle.pt_model.specs.Words as words_are;
ghost use Rattle.pt_view.specs.Calls.{IsCleared, IsEntryAt, IsFreed, IsWritten, MayClear, MayWrite, MeetsEntry, Went};
ghost use Rattle.pt_rule.specs.Kinds.{IsLowestIn};
ghost use Rattle.pt_rule.specs.Meets.{Always, IsWhole};
ghost use Rattle.pt_space.specs.Standing.{IsEntryPlace, StaysIn};

use crate::lease::Lease;
use crate::space::Space;
use crate::step::{At, exchange, load, store, store_piece, store_zero};
use pt_format::Format;
use pt_num::Span;
use pt_view::{Holder, Seen, Won};
use pt_words::{
    entry_place, frame_address, frame_named, held_word, next_in, placed_word, root_word,
};
use std::marker::Brand;

/// The level that the root's word names. In a format that doesn't grow it is known without it.
#[inline(always)]
fn root_level<F: Format>(root: u64) -> u32
    requires { F.layout.grows ≡ false → root % 8 + 1 ≡ F.layout.levels }
    ensures { result ≡ root % 8 }
{
    if F::GROWS {
        (root % 8) as u32
    } else {
        F::LEVELS - 1
    }
}

impl<'a, F: Format> Lease<'a, F> {
    /// The frame of the path's last table, and the word that is an entry of it.
    #[inline(always)]
    fn entry(&self, number: u32) -> (u32, usize)
        requires { (p : Position) × IsEntryAt F.layout self.now.view p number }
        ensures lowest { IsLowestIn self.now.view result.0 }
        ensures a_frame { result.0 < self.now.space.frames }
        ensures small { result.1 < 2 ^ 32 }
        ensures place { words_are.entry_place F.layout self.now.space.frames result.0 number ≡ result.1 }
        ensures within { result.1 < words_are.word_count F.layout self.now.space.frames }
    {
        let space = self.space;
        let frame = self.path[self.depth as usize - 1];
        (frame, entry_place::<F>(space.frames, frame, number))
    }

    /// Loads an entry, of which the place is known, and goes into the table that it names, if it does.
    #[inline(always)]
    fn enter_at(&mut self, frame: u32, place: usize, number: u32) -> Seen
        requires meets { MeetsEntry F.layout self.old.view number }
        requires at { IsEntryPlace F.layout self.old frame number place }
        ensures stays { StaysIn F.layout self.old self.new }
        ensures went { Went F.layout Always (IsWhole F.layout self.old.view) number self.old.view result self.new.view }
    {
        let depth = self.depth;
        let level = self.level;
        let at = At {
            depth,
            frame,
            number,
        };
        let word = load::<F, Brand>(self.space, &mut self.seat, at, place);
        if word == 0 {
            return Seen::Empty;
        }
        if F::is_leaf(level, word) {
            return Seen::Leaf(word);
        }
        self.path[depth as usize] = frame_named::<F>(F::address_of(level, word));
        self.depth = depth + 1;
        self.level = level - 1;
        Seen::Entered
    }

    /// Writes a word of a block into an entry, of which the place is known.
    #[inline(always)]
    fn write_at(&mut self, frame: u32, place: usize, number: u32, word: u64)
        requires may { MayWrite F.layout self.old.view number word }
        requires at { IsEntryPlace F.layout self.old frame number place }
        ensures stays { StaysIn F.layout self.old self.new }
        ensures written { IsWritten F.layout Always number word self.old.view self.new.view }
    {
        let at = At {
            depth: self.depth,
            frame,
            number,
        };
        store_piece::<F, Brand>(self.space, &mut self.seat, at, place, word);
    }

    /// Clears an entry, of which the place is known, at which the word of an own block stands.
    #[inline(always)]
    fn clear_at(&mut self, frame: u32, place: usize, number: u32)
        requires may { MayClear F.layout self.old.view number }
        requires at { IsEntryPlace F.layout self.old frame number place }
        ensures stays { StaysIn F.layout self.old self.new }
        ensures cleared { IsCleared F.layout Always number self.old.view self.new.view }
    {
        let at = At {
            depth: self.depth,
            frame,
            number,
        };
        store_piece::<F, Brand>(self.space, &mut self.seat, at, place, 0);
    }

    /// Frees the first frame of the purse.
    fn free_first(&mut self)
        requires { 0 < length self.old.view.purse }
        ensures stays { StaysIn F.layout self.old self.new }
        ensures freed { (frame : ℕ) × IsFreed Always (frame ∷ []) self.old.view self.new.view }
    {
        let Some(frame) = self.head else {
            unreachable!()
        };
        let at = At {
            depth: self.depth,
            frame,
            number: 0,
        };
        let tag = load::<F, Brand>(self.space, &mut self.seat, at, 1 + frame as usize);
        let next = next_in(tag);
        store::<F, Brand>(self.space, &mut self.seat, at, 1 + frame as usize, 0);
        self.head = next;
        self.held -= 1;
    }
}

impl<'a, F: Format> Holder<F> for Lease<'a, F> {
    ghost use Rattle.pt_rule.specs.Meets.{Always, IsWhole};
    ghost use Rattle.pt_space.specs.Standing.{none_aside};

    type Space = Space<F>;

    ghost space = { λ s. s.space };

    ghost view = { λ s. s.view };

    ghost aside = { λ s. none_aside };

    ghost tells = { Always };

    ghost alone = { λ s. IsWhole F.layout s.view };

    #[inline(always)]
    fn root(&mut self) -> u32 {
        let at = At {
            depth: self.depth,
            frame: 0,
            number: 0,
        };
        let found = load::<F, Brand>(self.space, &mut self.seat, at, 0);
        let level = root_level::<F>(found);
        self.path[0] = (found / 8) as u32;
        self.depth = 1;
        self.level = level;
        level
    }

    #[inline(always)]
    fn enter(&mut self, number: u32) -> Seen {
        let (frame, place) = self.entry(number);
        self.enter_at(frame, place, number)
    }

    fn empty_run(&mut self, first: u32, count: u32) -> bool {
        let (frame, place) = self.entry(first);
        for i in 0..count {
            match self.enter_at(frame, place + i as usize, first + i) {
                Seen::Empty => {}
                Seen::Leaf(_) => return false,
                Seen::Entered => {
                    self.leave();
                    return false;
                }
            }
        }
        true
    }

    #[inline(always)]
    fn leave(&mut self) {
        self.depth -= 1;
        self.level += 1;
    }

    fn place(&mut self, level: u32, base: u64) {
        let Some(frame) = self.head else {
            unreachable!()
        };
        let at = At {
            depth: self.depth,
            frame,
            number: 0,
        };
        let tag = load::<F, Brand>(self.space, &mut self.seat, at, 1 + frame as usize);
        let next = next_in(tag);
        let word = placed_word(level, base);
        store::<F, Brand>(self.space, &mut self.seat, at, 1 + frame as usize, word);
        self.head = next;
        self.held -= 1;
        self.prepared = Some(frame);
    }

    fn unplace(&mut self) {
        let Some(frame) = self.prepared else {
            unreachable!()
        };
        let at = At {
            depth: self.depth,
            frame,
            number: 0,
        };
        let word = held_word(self.head);
        store::<F, Brand>(self.space, &mut self.seat, at, 1 + frame as usize, word);
        self.head = Some(frame);
        self.held += 1;
        self.prepared = None;
    }

    fn install(&mut self, number: u32) -> Won {
        let depth = self.depth;
        let level = self.level;
        let (parent, place) = self.entry(number);
        let Some(frame) = self.prepared else {
            unreachable!()
        };
        let at = At {
            depth,
            frame: parent,
            number,
        };
        let word = F::table_word(level, frame_address::<F>(frame));
        let found = exchange::<F, Brand>(self.space, &mut self.seat, at, place, 0, word);
        if found != 0 {
            self.path[depth as usize] = frame_named::<F>(F::address_of(level, found));
            self.depth = depth + 1;
            self.level = level - 1;
            return Won::Met;
        }
        self.path[depth as usize] = frame;
        self.depth = depth + 1;
        self.level = level - 1;
        self.prepared = None;
        Won::Yes
    }

    fn grow(&mut self) -> Won {
        let space = self.space;
        let level = self.level;
        let root = self.path[0];
        let Some(frame) = self.prepared else {
            unreachable!()
        };
        let at = At {
            depth: self.depth,
            frame,
            number: 0,
        };
        let place = entry_place::<F>(space.frames, frame, 0);
        let pointer = F::table_word(level + 1, frame_address::<F>(root));
        store::<F, Brand>(space, &mut self.seat, at, place, pointer);
        let old = root_word(root, level);
        let new = root_word(frame, level + 1);
        let found = exchange::<F, Brand>(space, &mut self.seat, at, 0, old, new);
        if found == old {
            self.path[0] = frame;
            self.level = level + 1;
            self.prepared = None;
            return Won::Yes;
        }
        store_zero::<F, Brand>(space, &mut self.seat, at, place);
        self.depth = 0;
        Won::Met
    }

    #[inline(always)]
    fn write(&mut self, number: u32, word: u64) {
        let (frame, place) = self.entry(number);
        self.write_at(frame, place, number, word);
    }

    fn write_run(&mut self, first: u32, count: u32, word: u64, step: u64) {
        let _depth = self.depth;
        let (frame, place) = self.entry(first);
        let mut next = word;
        for i in 0..count {
            self.write_at(frame, place + i as usize, first + i, next);
            next = next.wrapping_add(step);
        }
    }

    #[inline(always)]
    fn clear(&mut self, number: u32) {
        let (frame, place) = self.entry(number);
        self.clear_at(frame, place, number);
    }

    fn clear_run(&mut self, first: u32, count: u32) -> u32 {
        let (frame, place) = self.entry(first);
        let mut cleared = 0;
        for i in 0..count {
            let number = first + i;
            let entry = place + i as usize;
            match self.enter_at(frame, entry, number) {
                Seen::Empty => {}
                Seen::Leaf(_) => {
                    self.clear_at(frame, entry, number);
                    cleared += 1;
                }
                Seen::Entered => unreachable!(),
            }
        }
        cleared
    }

    fn unlink(&mut self, number: u32) {
        let depth = self.depth;
        let (frame, place) = self.entry(number);
        let at = At {
            depth,
            frame,
            number,
        };
        let word = load::<F, Brand>(self.space, &mut self.seat, at, place);
        let child = frame_named::<F>(F::address_of(self.level, word));
        let own = At {
            depth,
            frame: child,
            number: 0,
        };
        let tag = held_word(self.head);
        store_zero::<F, Brand>(self.space, &mut self.seat, at, place);
        store::<F, Brand>(self.space, &mut self.seat, own, 1 + child as usize, tag);
        self.head = Some(child);
        self.held += 1;
    }

    fn take(&mut self, frame: u32) -> bool {
        let at = At {
            depth: self.depth,
            frame,
            number: 0,
        };
        let word = held_word(self.head);
        let found = exchange::<F, Brand>(
            self.space,
            &mut self.seat,
            at,
            1 + frame as usize,
            0,
            word,
        );
        if found != 0 {
            return false;
        }
        self.head = Some(frame);
        self.held += 1;
        true
    }

    fn release(&mut self) {
        for _ in 0..self.held {
            self.free_first();
        }
    }

    fn known_taken(&self) -> u32 {
        let _span = self.count;
        0
    }

    fn purse(&self) -> u32 {
        self.held
    }

    fn frames(&self) -> u32 {
        let space = self.space;
        space.frames
    }

    fn levels(&self) -> u32 {
        let space = self.space;
        space.levels
    }

    fn range(&self) -> Span {
        Span {
            first: self.first,
            count: self.count,
        }
    }
}
