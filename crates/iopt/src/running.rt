//! What a text is answered, and what is put for a number.

ghost use Rattle.std.specs.Prelude.{◌≡◌, IfOk, IfErr};
ghost use Rattle.pt_run.specs.Scripted.{IsRunOfOne};
ghost use Rattle.pt_run.specs.Shared.{IsRunShared};
ghost use Rattle.iopt.specs.Runs.{IsAnswered, IsMadeOf, IsMadeText, IsRefusedFor, IsTextOf, ScriptsAreNotRefused, ScriptsAreOne, TextsAreOne};

use crate::saving::image_for;
use crate::words::Product;
use pt_made::{generate, made_scripts_lack_no_frames, summary_text};
use pt_num::Memory;
use pt_run::{Gate, ample_run_is_plain, reply_text, run_plain, run_shared, shared_run_is_plain};
use pt_script::{Script, ScriptError, bad_is_no_script, parse};
use pt_stream::one_number;
use std::alloc::Global;
use std::thread::Threads;

/// The text of the replies to a script, with the branches of its forks beside each other.
fn text_beside<R: Threads + Sync, G: Gate + Sync>(
    rt: &R,
    alloc: Global,
    script: &Script,
    gate: &G,
) -> Result<Vec<u8>, Memory>
    ensures { IfOk result (λ text. IsTextOf (IsRunShared script.now) script.now text.items) }
{
    let replies = run_shared(rt, alloc, script, gate)?;
    reply_text(alloc, script.format, &replies)
}

/// The text of the replies to a script, with the branches of its forks in turn.
fn text_in_turn(alloc: Global, script: &Script) -> Result<Vec<u8>, Memory>
    ensures { IfOk result (λ text. IsTextOf (IsRunOfOne script.now) script.now text.items) }
{
    let replies = run_plain(alloc, script)?;
    reply_text(alloc, script.format, &replies)
}

/// What is put for a script.
fn made_of<R: Threads + Sync, G: Gate + Sync>(
    rt: &R,
    alloc: Global,
    script: &Script,
    product: Product,
    gate: &G,
) -> Result<Vec<u8>, Memory>
    ensures { IfOk result (λ made. IsMadeOf product script.now made.items) }
{
    match product {
        Product::Beside => text_beside(rt, alloc, script, gate),
        Product::InTurn => text_in_turn(alloc, script),
        Product::Image => image_for(alloc, script),
    }
}

/// Where no outermost fork of a script is short in its run, the text is that of its run with the branches in turn as well.
fn texts_are_one()
    ensures { TextsAreOne }
{
    shared_run_is_plain();
}

/// What is put for a text, or why it is refused.
pub(crate) fn answer_to<R: Threads + Sync, G: Gate + Sync>(
    rt: &R,
    alloc: Global,
    text: &[u8],
    product: Product,
    gate: &G,
) -> Result<Vec<u8>, ScriptError>
    ensures answered { IfOk result (λ made. IsAnswered product text.now made.items) }
    ensures refused { IfErr result (IsRefusedFor text.now) }
{
    texts_are_one();
    let script = parse(alloc, text)?;
    match made_of(rt, alloc, &script, product, gate) {
        Ok(made) => Ok(made),
        Err(Memory) => Err(ScriptError::Memory),
    }
}

/// The summary of the run of a number's made script.
pub(crate) fn summary_of<R: Threads + Sync, G: Gate + Sync>(
    rt: &R,
    alloc: Global,
    number: u64,
    gate: &G,
) -> Result<Vec<u8>, Memory>
    ensures { IfOk result (λ text. IsMadeText number text.items) }
{
    made_scripts_lack_no_frames();
    ample_run_is_plain();
    let script = generate(alloc, number)?;
    let replies = run_shared(rt, alloc, &script, gate)?;
    summary_text(alloc, number, &script, replies.all())
}

/// The text of a script is refused at no line.
pub(crate) fn scripts_are_not_refused()
    ensures { ScriptsAreNotRefused }
{
    bad_is_no_script();
}

/// No two scripts have one text.
pub(crate) fn scripts_are_one()
    ensures { ScriptsAreOne }
{
    one_number();
}
