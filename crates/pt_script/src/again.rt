// Reading what was printed, and printing what was read.
ghost use Rattle.std.specs.Prelude.{◌≡◌, IfOk, IfErr};
ghost use Rattle.pt_script.specs.declared.whole.Script.{Script};
ghost use Rattle.pt_script.specs.Text.{IsErrorOf};
ghost use Rattle.pt_script.specs.Scripts.{IsLegal, text_in};

use crate::error::ScriptError;
use crate::laws::bad_is_no_script;
use crate::parsing::parse;
use crate::printing::print;
use crate::whole::Script;
use pt_num::Memory;
use pt_stream::one_number;
use std::alloc::Global;

/// Each script has a text of its own.
pub fn one_script()
    ensures { (s t : Script) → text_in s ≡ text_in t → s ≡ t }
{
    one_number();
}

/// What each script keeps: its header is within the limits, its body is one of the grammar, and its
/// commands and asks carry the numbers of their lines.
pub fn scripts_are_legal()
    ensures { (s : Script) → IsLegal s }
{}

/// Prints a script and reads it again: it is the same script, since its text is no other's.
pub fn read_again(alloc: Global, script: &Script) -> Result<Script, Memory>
    ensures { IfOk result (λ s. s ≡ script.now) }
{
    bad_is_no_script();
    one_script();
    let text = print(alloc, script)?;
    match parse(alloc, &text) {
        Ok(again) => Ok(again),
        Err(ScriptError::Memory) => Err(Memory),
        Err(ScriptError::Bad { .. }) => unreachable!(),
    }
}

/// Reads a text and prints it again: it is the same text.
pub fn print_again(alloc: Global, bytes: &[u8]) -> Result<Vec<u8>, ScriptError>
    ensures same { IfOk result (λ v. v.items ≡ bytes.now) }
    ensures bad { IfErr result (IsErrorOf bytes.now) }
{
    let script = parse(alloc, bytes)?;
    match print(alloc, &script) {
        Ok(out) => Ok(out),
        Err(Memory) => Err(ScriptError::Memory),
    }
}
