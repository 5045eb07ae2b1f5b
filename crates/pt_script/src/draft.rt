// A script that is being read.
ghost use Rattle.std.specs.Prelude.{◌≡◌, ◌≢◌, ◌+◌, ◌∷◌, ◌++◌, [], ℕ, Some, length, IfOk, IfErr, OnOk, IsTrue};
ghost use Rattle.pt_script.specs.Lines.{keyword_of, text_of, is_stated};
ghost use Rattle.pt_script.specs.Grammar.{may_stand, is_within, moved, start, Over};
ghost use Rattle.pt_script.specs.Draft.{command_of, ask_of, commands_behind, asks_behind, IsStop};
ghost use Rattle.pt_script.specs.States.{place_at, state_at, lines_read, IsSound};

use crate::error::{Reason, ScriptError};
use crate::line::Line;
use crate::progress::Progress;
use crate::reading::split_line;
use crate::stage::Stage;
use pt_model::{Ask, AskWhat, Command, What};
use std::alloc::{AllocError, Global};

fn command_of(line: Line) -> Option<What>
    ensures { result ≡ command_of line }
{
    match line {
        Line::Map { va, pa, len, prot } => Some(What::Map { va, pa, len, prot }),
        Line::Unmap { va, len } => Some(What::Unmap { va, len }),
        Line::Lookup { va } => Some(What::Lookup { va }),
        Line::Dump => Some(What::Dump),
        Line::Release => Some(What::Release),
        Line::Fork { at } => Some(What::Fork { at }),
        Line::With => Some(What::With),
        Line::End => Some(What::End),
        _ => None,
    }
}

fn ask_of(line: Line) -> Option<AskWhat>
    ensures { result ≡ ask_of line }
{
    match line {
        Line::Walk { va } => Some(AskWhat::Walk { va }),
        Line::Census => Some(AskWhat::Census),
        _ => None,
    }
}

fn keep_command(
    commands: &mut Vec<Command>,
    stage: Stage,
    number: u32,
    line: Line,
) -> Result<(), AllocError>
    ensures { OnOk result (commands.new.items ≡ commands_behind stage number line commands.old.items) }
{
    if let Stage::Body { .. } = stage {
        if let Some(what) = command_of(line) {
            commands.push(Command { line: number, what })?;
        }
    }
    Ok(())
}

fn keep_ask(asks: &mut Vec<Ask>, stage: Stage, number: u32, line: Line) -> Result<(), AllocError>
    ensures { OnOk result (asks.new.items ≡ asks_behind stage number line asks.old.items) }
{
    if let Stage::Tail { .. } = stage {
        if let Some(what) = ask_of(line) {
            asks.push(Ask { line: number, what })?;
        }
    }
    Ok(())
}

// What was read so far.
#[derive(Drop)]
pub(crate) struct Draft {
    pub(crate) progress: Progress,
    pub(crate) commands: Vec<Command>,
    pub(crate) asks: Vec<Ask>,
}

impl Draft {
    pub(crate) fn new(alloc: Global) -> Draft
        ensures state { state_at result.progress ≡ start }
        ensures lines { lines_read result ≡ [] }
        ensures draft { IsSound result }
    {
        Draft {
            progress: Progress::new(),
            commands: Vec::new(alloc),
            asks: Vec::new(alloc),
        }
    }

    // The next line, and what follows it.
    pub(crate) fn read<'a>(&self, rest: &'a [u8]) -> Result<(Line, &'a [u8]), ScriptError>
        requires { place_at self.now.progress ≢ Over }
        ensures cut { IfOk result (λ x. rest.now ≡ text_of x.0 ++ 10 ∷ x.1.now) }
        ensures stated { IfOk result (λ x. IsTrue (is_stated x.0)) }
        ensures stands { IfOk result (λ x. IsTrue (may_stand (keyword_of x.0) (place_at self.now.progress))) }
        ensures within { IfOk result (λ x. IsTrue (is_within x.0 (state_at self.now.progress))) }
        ensures stop { IfErr result (IsStop (state_at self.now.progress) rest.now (self.now.progress.lines + 1)) }
    {
        let Some((raw, more)) = split_line(rest) else {
            return Err(self.progress.bad(Reason::Ended))
        };
        match self.progress.read(raw) {
            Ok(line) => Ok((line, more)),
            Err(reason) => Err(self.progress.bad(reason)),
        }
    }

    // Keeps a line.
    pub(crate) fn add(&mut self, line: Line) -> Result<(), AllocError>
        requires draft { IsSound self.old }
        requires stated { IsTrue (is_stated line) }
        requires stands { IsTrue (may_stand (keyword_of line) (place_at self.old.progress)) }
        requires within { IsTrue (is_within line (state_at self.old.progress)) }
        ensures state { OnOk result (state_at self.new.progress ≡ moved line (state_at self.old.progress)) }
        ensures lines { OnOk result (lines_read self.new ≡ lines_read self.old ++ line ∷ []) }
        ensures draft { OnOk result (IsSound self.new) }
    {
        let stage = self.progress.stage;
        let number = self.progress.number();
        keep_command(&mut self.commands, stage, number, line)?;
        keep_ask(&mut self.asks, stage, number, line)?;
        self.progress.advance(line);
        Ok(())
    }
}
