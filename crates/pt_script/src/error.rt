// Why a text is no script.
ghost use Rattle.std.specs.Prelude.{◌≡◌};
ghost use Rattle.pt_script.specs.declared.error.ScriptError.TheVariants.{Memory};

use std::alloc::{AllocError, AllocFailed};
use thiserror::Error;

/// Why an input is no script, at the first line that no script has after the lines before it. The
/// reason is the first that holds, in the order `After`, `Ended`, `Word`, `Shape`, `Argument`, `Limit`.
#[derive(Clone, Copy, Debug, PartialEq, Eq)]
pub enum Reason {
    /// The input ends before this line's line feed.
    Ended,
    /// The first word isn't one that may stand here.
    Word,
    /// The line hasn't the number of words of its form.
    Shape,
    /// A word isn't a number, a permission or a format's name where the form wants one.
    Argument,
    /// A number of the header is out of its limits, or the line is one command line, one dump or one
    /// level of forks too many.
    Limit,
    /// The line follows the last `end`.
    After,
}

/// Why no script was read.
#[derive(Clone, Copy, Debug, PartialEq, Eq, Error)]
pub enum ScriptError {
    /// The input is no script, from this line on. The first line is number 1.
    #[error("bad line {line}")]
    Bad { line: u32, reason: Reason },
    /// No memory was found.
    #[error("out of memory")]
    Memory,
}

impl From<AllocError> for ScriptError {
    ghost from_gives = { λ _ e. e ≡ Memory };

    fn from(_error: AllocError) -> ScriptError {
        ScriptError::Memory
    }
}

impl<T: Drop> From<AllocFailed<T>> for ScriptError {
    ghost from_gives = { λ _ e. e ≡ Memory };

    fn from(_failed: AllocFailed<T>) -> ScriptError {
        ScriptError::Memory
    }
}
