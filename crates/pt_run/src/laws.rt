//! Where the run on a shared space is the run over one owner.

ghost use Rattle.pt_run.specs.Shared.{AmpleRunIsPlain, SharedRunIsPlain};

use pt_laws::{hold_is_ample, one_text};
use pt_script::scripts_are_legal;

/// Where no outermost fork of a script is short in its run on a shared space, no line inside a fork lacks frames, and the
/// replies are those of its run over one owner.
pub fn shared_run_is_plain()
    ensures { SharedRunIsPlain }
{
    one_text();
    scripts_are_legal();
}

/// Where the frames that a script holds are at least its need, this is so, and no reply is `map frames`.
pub fn ample_run_is_plain()
    ensures { AmpleRunIsPlain }
{
    hold_is_ample();
    scripts_are_legal();
}
