//! Made scripts: the script that is made of a number, what the maps of a script need, and the summary of its replies.
//!
//! It stands on the laws of runs, on scripts and on the five families of formats. A made script is a function of its number
//! alone: `specs/Made` has its draws, commands and forks, and `specs/Summary` the five lines of its summary.
//!
//! It promises that `generate` answers the one made script of a number, which holds as many frames as its own need; that
//! `need_of` and `need` are the need of commands in which no map counts more than all frames and one; and that
//! `summary_text` is the summary. In the run of a made script no map lacks frames (`made_scripts_lack_no_frames`).
#![tactic(auto)]

ghost use Rattle.pt_made.specs.Laws.{OneMade, MadeLackNoFrames};

use pt_laws::hold_is_ample;
use pt_script::{one_script, scripts_are_legal};

mod draws;
mod generating;
mod making;
mod needing;
mod summary;

pub use generating::generate;
pub use needing::{need, need_of, need_on};
pub use summary::summary_text;

#[cfg(test)]
mod tests;

/// A number has one made script.
pub fn one_made()
    ensures { OneMade }
{
    one_script();
}

/// In the run of a made script no map lacks frames, whatever runs its forks.
pub fn made_scripts_lack_no_frames()
    ensures { MadeLackNoFrames }
{
    hold_is_ample();
    scripts_are_legal();
}
