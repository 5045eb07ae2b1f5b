//! The trait of holders.

ghost use Rattle.std.specs.Prelude.{◌≡◌, ℕ, ◌+◌, ◌<◌, ◌≤◌, [], length, None};
ghost use Rattle.pt_model.specs.declared.position.Position.{Position};
ghost use Rattle.pt_model.specs.Tables.{IsPosition};
ghost use Rattle.pt_view.specs.declared.view.View.{View};
ghost use Rattle.pt_model.specs.Layout.{input_pages};
ghost use Rattle.pt_view.specs.Views.{Aside, Stays, IsLawfulAtRest, Rests};
ghost use Rattle.pt_view.specs.Calls.{MeetsEntry, Rooted, Went, left};
ghost use Rattle.pt_view.specs.Calls.{IsPrepared, IsPlaced, IsUnplaced, MayInstall, IsInstalled, InstallFinds, MayGrow, IsGrown};
ghost use Rattle.pt_view.specs.Calls.{MayWrite, IsWritten, MayWriteRun, IsWrittenRun};
ghost use Rattle.pt_view.specs.Calls.{MayClear, IsCleared, MayUnlink, IsUnlinked, UnlinkFinds};
ghost use Rattle.pt_view.specs.Runs.{MayClearRun, IsClearedRun, MeetsRun, LooksAtRun};
ghost use Rattle.pt_view.specs.Calls.{IsTaken, IsReleased, HasEveryFrame, HasFramesBelow, FillsSpace, FitsSpace};

use pt_format::Format;
use pt_num::Span;

/// What a load of an entry found.
#[derive(Clone, Copy, Debug, PartialEq, Eq)]
pub enum Seen {
    /// Zero.
    Empty,
    /// The word of an own block.
    Leaf(u64),
    /// A pointer: the path went into the table that it names.
    Entered,
}

/// Whether a prepared frame was linked.
#[derive(Clone, Copy, Debug, PartialEq, Eq)]
pub enum Won {
    /// It was.
    Yes,
    /// Another table was linked there before.
    Met,
}

/// A holder of a range of pages of a space: it alone changes what is mapped there, whatever other
/// holders do to the rest between its steps.
///
/// Every call leaves the space that the holder is of, and what it has set aside, as they were. Frames
/// are numbers below `frames()`, levels count from 0, spans are in pages.
pub trait Holder<F: Format> {
    /// Names the space that the holder is of.
    type Space;

    ghost space: { Self → Self.Space };

    /// What the holder knows.
    ghost view: { Self → View };

    /// The blocks and linked positions that it has set aside.
    ghost aside: { Self → Aside };

    /// Whether the histories `taken`, `absent` and `stores` are kept.
    ghost tells: { Type 0 };

    /// Whether no other live view of its words exists.
    ghost alone: { Self → Type 0 };

    /// Loads the root and goes to its table. Answers the root's level.
    fn root(&mut self) -> u32
        requires { (view self.old).path ≡ [] }
        ensures stays { Stays space aside alone self.old self.new }
        ensures rooted { Rooted F.layout tells (alone self.old) (view self.old) result (view self.new) };

    /// Loads an entry of the path's last table, and goes into the table that it names, if it does.
    fn enter(&mut self, number: u32) -> Seen
        requires { MeetsEntry F.layout (view self.old) number }
        ensures stays { Stays space aside alone self.old self.new }
        ensures went { Went F.layout tells (alone self.old) number (view self.old) result (view self.new) };

    /// Loads `count` entries of the path's last table, from number `first` on. True only where each was zero. Others
    /// see the loads one by one.
    fn empty_run(&mut self, first: u32, count: u32) -> bool
        requires { MeetsRun F.layout (view self.old) first count }
        ensures stays { Stays space aside alone self.old self.new }
        ensures looks { LooksAtRun F.layout tells first count (view self.old) result (view self.new) };

    /// Leaves the path's last table. Makes no step.
    fn leave(&mut self)
        requires { 0 < length (view self.old).path }
        ensures stays { Stays space aside alone self.old self.new }
        ensures left { view self.new ≡ left (view self.old) };

    /// Prepares the first frame of the purse for a position.
    fn place(&mut self, level: u32, base: u64)
        requires some { 0 < length (view self.old).purse }
        requires none { (view self.old).prepared ≡ None }
        requires legal { IsPosition F.layout (record { level = level; base = base }) }
        ensures stays { Stays space aside alone self.old self.new }
        ensures placed { IsPlaced tells (view self.old) (record { level = level; base = base }) (view self.new) };

    /// Puts the prepared frame back, as the first of the purse.
    fn unplace(&mut self)
        requires { IsPrepared (view self.old) }
        ensures stays { Stays space aside alone self.old self.new }
        ensures unplaced { IsUnplaced tells (view self.old) (view self.new) };

    /// Links the prepared frame at an entry of the path's last table, where no other table is linked,
    /// and goes into the table that is linked there.
    fn install(&mut self, number: u32) -> Won
        requires { MayInstall F.layout (view self.old) number }
        ensures stays { Stays space aside alone self.old self.new }
        ensures installed { IsInstalled F.layout tells number (view self.old) result (view self.new) }
        ensures found { InstallFinds F.layout (alone self.old) number (view self.old) result };

    /// Makes the prepared frame the top over the root, and goes to it, where no other holder raised the root before.
    fn grow(&mut self) -> Won
        requires { MayGrow (view self.old) }
        ensures stays { Stays space aside alone self.old self.new }
        ensures grown { IsGrown F.layout tells (alone self.old) (view self.old) result (view self.new) };

    /// Writes a word of a block into an entry of the path's last table.
    fn write(&mut self, number: u32, word: u64)
        requires { MayWrite F.layout (view self.old) number word }
        ensures stays { Stays space aside alone self.old self.new }
        ensures written { IsWritten F.layout tells number word (view self.old) (view self.new) };

    /// Writes words of blocks into `count` entries of the path's last table, from number `first` on: `word`, and
    /// in each next entry `step` more. Others see the stores one by one.
    fn write_run(&mut self, first: u32, count: u32, word: u64, step: u64)
        requires { MayWriteRun F.layout (view self.old) first count word step }
        ensures stays { Stays space aside alone self.old self.new }
        ensures written { IsWrittenRun F.layout tells first count word step (view self.old) (view self.new) };

    /// Clears an entry of the path's last table, at which the word of an own block stands.
    fn clear(&mut self, number: u32)
        requires { MayClear F.layout (view self.old) number }
        ensures stays { Stays space aside alone self.old self.new }
        ensures cleared { IsCleared F.layout tells number (view self.old) (view self.new) };

    /// Clears those of `count` entries of the path's last table, from number `first` on, at which the word of an own
    /// block stands. The table is of level 0. Answers how many. Others see the stores one by one.
    fn clear_run(&mut self, first: u32, count: u32) -> u32
        requires { MayClearRun F.layout (view self.old) first count }
        ensures stays { Stays space aside alone self.old self.new }
        ensures cleared { IsClearedRun F.layout tells first count (view self.old) result (view self.new) };

    /// Unlinks the table at an entry of the path's last table: its frame is then the first of the purse.
    fn unlink(&mut self, number: u32)
        requires { MayUnlink F.layout (view self.old) number }
        ensures stays { Stays space aside alone self.old self.new }
        ensures unlinked { IsUnlinked F.layout tells number (view self.old) (view self.new) }
        ensures found { UnlinkFinds F.layout (alone self.old) number (view self.old) };

    /// Tries to take a frame, which is then the first of the purse. False only where it wasn't free.
    fn take(&mut self, frame: u32) -> bool
        requires { frame < (view self.old).frames }
        ensures stays { Stays space aside alone self.old self.new }
        ensures taken { IsTaken tells frame (view self.old) result (view self.new) }
        ensures all { alone self.old → HasEveryFrame (view self.new) → FillsSpace (view self.new) (aside self.new) };

    /// Frees every frame of the purse, first to last.
    fn release(&mut self)
        requires { Rests F.layout (view self.old) }
        ensures stays { Stays space aside alone self.old self.new }
        ensures released { IsReleased tells (view self.old) (view self.new) };

    /// A number below which the holder knows that no frame is free: a take of one of them would fail. A holder whose
    /// takes are told answers 0.
    fn known_taken(&self) -> u32
        ensures taken { HasFramesBelow (view self.now) result }
        ensures told { tells → result ≡ 0 }
        ensures all { alone self.now → HasEveryFrame (view self.now) → FillsSpace (view self.now) (aside self.now) };

    /// The number of frames in the purse.
    fn purse(&self) -> u32
        ensures count { result ≡ length (view self.now).purse }
        ensures within { result ≤ (view self.now).frames }
        ensures few { alone self.now → FitsSpace (view self.now) (aside self.now) };

    /// The number of frames of the space.
    fn frames(&self) -> u32
        ensures count { result ≡ (view self.now).frames }
        ensures some { 0 < result };

    /// The number of levels that the space started with.
    fn levels(&self) -> u32
        ensures levels { result ≡ (view self.now).levels }
        ensures legal { (F.layout.start ≤ result) × (result ≤ F.layout.levels) };

    /// The span. At rest the book over it is lawful.
    fn range(&self) -> Span
        ensures first { result.first ≡ (view self.now).first }
        ensures count { result.count ≡ (view self.now).count }
        ensures some { 0 < result.count }
        ensures within { result.first + result.count ≤ input_pages F.layout }
        ensures levels { F.layout.start ≤ (view self.now).levels }
        ensures lawful { IsLawfulAtRest F.layout (view self.now) };
}
