//! The run of a body over one owner.

ghost use Rattle.std.specs.Prelude.{◌≡◌, [], IfOk, IsTrue};
ghost use Rattle.pt_reply.specs.Running.{IsReady};
ghost use Rattle.pt_reply.specs.Telling.{has_small_blocks};
ghost use Rattle.pt_forks.specs.Running.{IsOneBody};
ghost use Rattle.pt_narrow.specs.Standing.{HasRunOver};

use crate::narrowed::Narrowed;
use pt_forks::run_part;
use pt_format::Format;
use pt_model::{Command, Reply};
use pt_num::Memory;
use pt_plain::Plain;
use std::alloc::Global;

/// Runs the commands of a script's body, forks too, over one owner of a whole space at rest. Answers the owner, at rest again
/// with the book machine's last book, and the machine's replies in order. `Memory` alone is refused.
pub fn run_over<F: Format>(
    alloc: Global,
    plain: Plain<F>,
    commands: &[Command],
) -> Result<(Plain<F>, Vec<Reply>), Memory>
    requires small { IsTrue (has_small_blocks F.layout) }
    requires ready { IsReady F.layout plain.view }
    requires aside { plain.aside.positions ≡ [] }
    requires body { IsOneBody commands.now [] }
    ensures { IfOk result (λ r. HasRunOver F.layout plain r.0 commands.now r.1.items) }
{
    let mut owner = Narrowed::new(plain);
    let mut replies = Vec::new(alloc);
    run_part(alloc, &mut owner, commands, &mut replies)?;
    Ok((owner.into_plain(), replies))
}
