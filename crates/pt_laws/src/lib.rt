//! Laws on whole runs of scripts: what forks, frames and their need do to a run, whatever holder runs it. It stands on the
//! definitions alone (`pt_model`), and has no code.
//!
//! Promised: the branches of a fork that are run on two parts of a book, in either order, come to what they come to on the one
//! book in turn; a script whose held frames are at least its need lacks none; what a purse loses inside forks is at most what
//! the commands need, so that each line that lacks frames there stands in a fork that doesn't cover it; and where no fork
//! is short, the run with forks beside each other is the run of one owner.
#![tactic(auto)]

ghost use Rattle.pt_laws.specs.Laws.{BranchesComeTogether};
ghost use Rattle.pt_laws.specs.Need.{NeedIsEnough, HoldIsEnough};
ghost use Rattle.pt_laws.specs.Covers.{EachKeepsSoFar, PursesLast, ForksCover};
ghost use Rattle.pt_laws.specs.OneText.{LackUncovered, PrintedUncovered, OneText, SharedIsPlain, HoldIsAmple};

/// The branches of a fork that are run on two parts of a book, in either order or beside each other, and
/// the same branches that are run in turn on the one book: the replies are the same, and so is the book.
pub fn branches_come_together()
    ensures { BranchesComeTogether }
{}

/// Where the frames that are held are at least the need of a script, at every command the linked positions
/// and the need of what is left are at most all frames.
pub fn need_is_enough()
    ensures { NeedIsEnough }
{}

/// So no map is short by the account, and no fork is short.
pub fn hold_is_enough()
    ensures { HoldIsEnough }
{}

/// What a loop over the commands of a branch keeps: it holds at the start, and each call and each fork keeps it.
pub fn each_keeps()
    ensures { EachKeepsSoFar }
{}

/// Commands run inside forks: what the purse loses is at most their need, and a map is refused for frames
/// only where the need of the maps up to it is more than the purse had at the start, and, before the first
/// fork among them, their use too.
pub fn purses_last()
    ensures { PursesLast }
{}

/// Where the purse of an outermost fork holds the need of both branches, or all that isn't linked, a map
/// inside it is refused for frames only on a line that the fork doesn't cover, by need or by use.
pub fn forks_cover()
    ensures { ForksCover }
{}

/// So each line of a whole run that is refused for frames inside forks stands in an outermost fork that
/// doesn't cover it.
pub fn lack_uncovered()
    ensures { LackUncovered }
{}

/// And so each line that those replies show.
pub fn printed_uncovered()
    ensures { PrintedUncovered }
{}

/// Where no outermost fork is short, there is no such line, and the run is that of one owner.
pub fn one_text()
    ensures { OneText }
{}

/// The same of a run on a new space, with the lines that its replies show.
pub fn shared_is_plain()
    ensures { SharedIsPlain }
{}

/// Where the frames that are held are at least the need, this is so, and no map is refused for frames.
pub fn hold_is_ample()
    ensures { HoldIsAmple }
{}
