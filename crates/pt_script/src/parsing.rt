// Reading a script.
ghost use Rattle.std.specs.Prelude.{◌≡◌, IsTrue, IfOk, IfErr};
ghost use Rattle.pt_script.specs.Text.{script_text, IsErrorOf};
ghost use Rattle.pt_script.specs.Numbered.{is_lawful, has_numbers, has_ask_numbers};
ghost use Rattle.pt_script.specs.Draft.{lines_at};
ghost use Rattle.pt_script.specs.Scripts.{text_in};

use crate::draft::Draft;
use crate::error::{Reason, ScriptError};
use crate::script::{Body, Tail};
use crate::stage::{Header, Stage};
use crate::whole::Script;
use pt_model::{Ask, Command};
use std::alloc::Global;

fn finish(header: Header, commands: Vec<Command>, asks: Vec<Ask>) -> Script
    requires lawful { IsTrue (is_lawful (lines_at (Stage.Over header) commands.items asks.items)) }
    requires numbered { IsTrue (has_numbers commands.items) }
    requires asked { IsTrue (has_ask_numbers commands.items asks.items) }
    ensures { text_in result ≡ script_text (lines_at (Stage.Over header) commands.items asks.items) }
{
    Script {
        format: header.format,
        levels: header.levels,
        frames: header.frames,
        hold: header.hold,
        body: Body::of(commands),
        tail: Tail::of(asks),
    }
}

/// The one script of this text, with its commands in the order of their lines. `Bad` comes exactly where the
/// text is that of no script: at the first line that no script has after the lines before it, with the first
/// reason that holds. `Memory` is want of memory. There is no limit on the number of bytes; each byte is read a small constant number of times, and what is kept is the script.
pub fn parse(alloc: Global, bytes: &[u8]) -> Result<Script, ScriptError>
    ensures script { IfOk result (λ s. bytes.now ≡ text_in s) }
    ensures bad { IfErr result (IsErrorOf bytes.now) }
{
    let mut draft = Draft::new(alloc);
    let mut rest = bytes;
    'lines: loop {
        if let Stage::Over { header } = draft.progress.stage {
            if !rest.is_empty() {
                return Err(draft.progress.bad(Reason::After));
            }
            return Ok(finish(header, draft.commands, draft.asks));
        }
        let (line, more) = draft.read(rest)?;
        draft.add(line)?;
        rest = more;
    }
}
