//! The rule of the words that several holders share: what holds of the words of a space and of all views
//! between any two steps, and what one step of one holder may be. It stands on the views (`pt_view`) and on
//! the laws of formats (`pt_format`), and has no code.
//!
//! Promised: a new space is lawful; each step keeps the rule, whatever the words and the other views are, and
//! the number that it finds tells what its kind says, which is what the holder's call says of its view; a view is cut
//! in two and two are put together; a holder of the whole space is the only one; the book of a holder at rest is
//! lawful; the pieces and the tables of a holder of the whole space are read from the words, entry by entry, and its census
//! is counted over them; the manual's walk of the words is the union of what the views map.
#![tactic(auto)]

ghost use Rattle.pt_rule.specs.Laws.{NewIsLawful, StepsKeep, FrontsKeep, ViewsNote, SplitsKeep, JoinsKeep, ViewsHold, WholeIsAlone, WholeIsCounted, BooksAreLawful};
ghost use Rattle.pt_rule.specs.WholeView.{WholeIsRead};
ghost use Rattle.pt_rule.specs.WholeCounts.{CensusIsRead, EntriesAreRead, PiecesAreAdded, ReadingsTell, TagsAreCounted};
ghost use Rattle.pt_rule.specs.Union.{WalkIsUnion};
ghost use Rattle.pt_rule.specs.Meets.{StepsMeet, UnlinkMeets, GrowMeets, ReleaseMeets};

/// A new space is lawful, with the one view of the whole space.
pub fn new_is_lawful()
    ensures { NewIsLawful }
{}

/// Each kind of step keeps the rule, whatever the words and the other views are: the exchanges, stores and loads
/// of a frame's tag, the loads of the root and of an entry, the exchange of an entry that links a table, the
/// store of a block's word to an entry, the stores of zero over such a word and over a table, and the stores of a
/// bridge and the exchange of the root by which a tree grows. What the number found tells is `Tells` of the kind.
pub fn steps_keep()
    ensures { StepsKeep }
{}

/// What a holder's calls are: a step of each kind, where the number found tells what its kind says, does to the view
/// what the trait's call that makes it says. `unlink`, `grow` and `release` are several steps in a row, each of which may
/// be made after those before it.
pub fn calls_meet()
    ensures steps { StepsMeet }
    ensures unlink { UnlinkMeets }
    ensures grow { GrowMeets }
    ensures release { ReleaseMeets }
{}

/// What is said of a seat's step holds too of a step of a holder that has only the front of its seat's path.
pub fn fronts_keep()
    ensures { FrontsKeep }
{}

/// A view may leave the last tables of its path, and what it says to have met may be anything that is true: frames that
/// aren't free, and positions that are linked. Its histories may be any.
pub fn views_note()
    ensures { ViewsNote }
{}

/// A view that is cut in two at a page, where no block lies across it, keeps the rule as two views.
pub fn splits_keep()
    ensures { SplitsKeep }
{}

/// Two views at rest whose spans are side by side keep the rule as one.
pub fn joins_keep()
    ensures { JoinsKeep }
{}

/// What holds of each live view wherever the rule does.
pub fn views_hold()
    ensures { ViewsHold }
{}

/// A view whose span is the whole space is the only live one.
pub fn whole_is_alone()
    ensures { WholeIsAlone }
{}

/// The linked positions, the purse and the prepared frame of a view of the whole space take no more than the
/// frames, and all of them where every frame is on its busy list.
pub fn whole_is_counted()
    ensures { WholeIsCounted }
{}

/// The book of a live view at rest is lawful: its blocks are legal, in order and apart, and have the tables that
/// they need.
pub fn books_are_lawful()
    ensures { BooksAreLawful }
{}

/// The pieces and the tables of a view of the whole space are those that are read from the words, its top is the
/// root's level, and its span begins at page 0.
pub fn whole_is_read()
    ensures { WholeIsRead }
{}

/// Each entry of a linked frame of a view of the whole space is zero, where nothing stands there, or the word of the one
/// piece that does, or the pointer to the table that is linked there. What it reads as tells of the piece.
pub fn entries_are_read()
    ensures entries { EntriesAreRead }
    ensures readings { ReadingsTell }
{}

/// The census of a view of the whole space is a function of the words: the linked frames are as many as its linked
/// positions, and what a number of each piece adds up to is what it adds up to over the entries.
pub fn whole_adds_up()
    ensures tags { TagsAreCounted }
    ensures pieces { PiecesAreAdded }
    ensures census { CensusIsRead }
{}

/// The manual's walk of the words gives at each address the byte and the permission of the one piece of a view that
/// has the page, and nothing where none has it. It never meets a word that is strange.
pub fn walk_is_union()
    ensures { WalkIsUnion }
{}
