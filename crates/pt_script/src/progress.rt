// How far a script has come.
ghost use Rattle.std.specs.Prelude.{◌≡◌, ◌≢◌, ◌≤◌, ◌<◌, ◌+◌, ◌*◌, ℕ, Some, length, IfOk, IfErr, IsTrue, false, ◌∷◌, reverse};
ghost use Rattle.pt_script.specs.Lines.{keyword_of, text_of, is_stated, frame_limit, is_command, is_dump};
ghost use Rattle.pt_script.specs.Grammar.{may_stand, behind, fits, is_within, moved, start, InBody};
ghost use Rattle.pt_script.specs.Progress.{is_body, stage_behind, owed, frame_lines};
ghost use Rattle.pt_script.specs.Text.{Refuses};

use crate::error::{Reason, ScriptError};
use crate::line::{Keyword, Line, Side};
use crate::reading::{has_shape, keyword_in, line_in, split_word};
use crate::stage::{Header, Stage};
use arrayvec::ArrayVec;
use pt_model::Name;

const MOST_COMMANDS: u32 = 65_536;

const MOST_DUMPS: u32 = 256;

const MOST_FORKS: usize = 16;

fn frame_limit(format: Name) -> u64
    ensures limit { result ≡ frame_limit format }
    ensures below { result < 65536 }
{
    match format {
        Name::Vmsa16 => 8_192,
        Name::Vmsa64 => 2_048,
        _ => 32_768,
    }
}

fn is_command(line: Line) -> bool
    ensures { result ≡ is_command line }
{
    match line {
        Line::Map { .. }
        | Line::Unmap { .. }
        | Line::Lookup { .. }
        | Line::Dump
        | Line::Release
        | Line::Fork { .. }
        | Line::Walk { .. }
        | Line::Census => true,
        _ => false,
    }
}

fn open_fork(forks: &mut ArrayVec<Side, MOST_FORKS>)
    requires { length forks.old.items < 16 }
    ensures place { InBody (reverse forks.new.items) ≡ InBody (Side.Left ∷ reverse forks.old.items) }
    ensures owed { owed forks.new.items ≡ owed forks.old.items + 2 }
    ensures depth { length forks.new.items ≤ 16 }
{
    forks.push(Side::Left);
}

fn switch_branch(forks: &mut ArrayVec<Side, MOST_FORKS>)
    requires stands { IsTrue (may_stand Keyword.With (InBody (reverse forks.old.items))) }
    requires depth { length forks.old.items ≤ 16 }
    ensures place { InBody (reverse forks.new.items) ≡ behind Line.With (InBody (reverse forks.old.items)) }
    ensures owed { owed forks.new.items + 1 ≡ owed forks.old.items }
    ensures depth { length forks.new.items ≤ 16 }
{
    forks.pop();
    forks.push(Side::Right);
}

fn leave_fork(forks: &mut ArrayVec<Side, MOST_FORKS>)
    requires stands { IsTrue (may_stand Keyword.End (InBody (reverse forks.old.items))) }
    requires depth { length forks.old.items ≤ 16 }
    ensures place { InBody (reverse forks.new.items) ≡ behind Line.End (InBody (reverse forks.old.items)) }
    ensures owed { owed forks.new.items + 1 ≡ owed forks.old.items }
    ensures depth { length forks.new.items ≤ 16 }
{
    forks.pop();
}

// The lines so far: how many there are, with the commands and dumps among them, and the forks that
// are open, outermost first.
#[derive(Drop)]
pub(crate) struct Progress {
    pub(crate) stage: Stage,
    pub(crate) forks: ArrayVec<Side, MOST_FORKS>,
    pub(crate) lines: u32,
    pub(crate) commands: u32,
    pub(crate) dumps: u32,
    ghost unopened: { is_body stage ≡ false → length forks.items ≡ 0 },
    ghost few_forks: { length forks.items ≤ 16 },
    ghost few_commands: { commands ≤ 65536 },
    ghost few_dumps: { dumps ≤ 256 },
    ghost few_lines: { lines + owed forks.items ≤ 3 * commands + frame_lines stage },
}

impl Progress {
    ghost use Rattle.pt_script.specs.States.{place_at, state_at};

    pub(crate) fn new() -> Progress
        ensures state { state_at result ≡ start }
        ensures lines { result.lines ≡ 0 }
        ensures stage { result.stage ≡ Stage.Format }
    {
        Progress {
            stage: Stage::Format,
            forks: ArrayVec::new(),
            lines: 0,
            commands: 0,
            dumps: 0,
        }
    }

    // The number of the next line.
    pub(crate) fn number(&self) -> u32
        ensures { result ≡ self.now.lines + 1 }
    {
        self.lines + 1
    }

    // The error at the next line.
    pub(crate) fn bad(&self, reason: Reason) -> ScriptError
        ensures { result ≡ ScriptError.Bad (self.now.lines + 1) reason }
    {
        ScriptError::Bad {
            line: self.number(),
            reason,
        }
    }

    // Whether a line with this first word may come next.
    fn may_stand(&self, keyword: Keyword) -> bool
        ensures { result ≡ may_stand keyword (place_at self.now) }
    {
        match (self.stage, keyword) {
            (Stage::Format, Keyword::Format) => true,
            (Stage::Frames { .. }, Keyword::Frames) => true,
            (Stage::Hold { .. }, Keyword::Hold) => true,
            (Stage::Body { .. }, Keyword::Map | Keyword::Unmap | Keyword::Lookup) => true,
            (Stage::Body { .. }, Keyword::Dump | Keyword::Fork) => true,
            (Stage::Body { .. }, Keyword::Release | Keyword::Close) => self.forks.is_empty(),
            (Stage::Body { .. }, Keyword::With) => self.forks.last() == Some(&Side::Left),
            (Stage::Body { .. }, Keyword::End) => self.forks.last() == Some(&Side::Right),
            (Stage::Tail { .. }, Keyword::Walk | Keyword::Census | Keyword::End) => true,
            _ => false,
        }
    }

    // Whether the numbers of the header and the depth of the forks are within their limits.
    fn fits(&self, line: Line) -> bool
        ensures { result ≡ fits line (place_at self.now) }
    {
        match (self.stage, line) {
            (
                Stage::Format,
                Line::Format {
                    name: Name::AmdV1,
                    levels,
                },
            ) => 3 <= levels && levels <= 6,
            (Stage::Frames { format, .. }, Line::Frames { frames }) => 1 <= frames
                && frames <= frame_limit(format),
            (Stage::Hold { frames, .. }, Line::Hold { hold }) => hold < u64::from(frames),
            (Stage::Body { .. }, Line::Fork { .. }) => !self.forks.is_full(),
            _ => true,
        }
    }

    // Whether a line is within all limits.
    fn is_within(&self, line: Line) -> bool
        ensures { result ≡ is_within line (state_at self.now) }
    {
        self.fits(line)
            && (!is_command(line) || self.commands < MOST_COMMANDS)
            && (line != Line::Dump || self.dumps < MOST_DUMPS)
    }

    // Reads a line, or says why no script has it here.
    pub(crate) fn read(&self, raw: &[u8]) -> Result<Line, Reason>
        ensures spelled { IfOk result (λ l. raw.now ≡ text_of l) }
        ensures stated { IfOk result (λ l. IsTrue (is_stated l)) }
        ensures stands { IfOk result (λ l. IsTrue (may_stand (keyword_of l) (place_at self.now))) }
        ensures within { IfOk result (λ l. IsTrue (is_within l (state_at self.now))) }
        ensures refused { IfErr result (Refuses (state_at self.now) raw.now) }
    {
        let Some(keyword) = keyword_in(split_word(raw).0) else {
            return Err(Reason::Word)
        };
        if !self.may_stand(keyword) {
            return Err(Reason::Word);
        }
        if !has_shape(keyword, raw) {
            return Err(Reason::Shape);
        }
        let Some(line) = line_in(keyword, raw) else {
            return Err(Reason::Argument)
        };
        if !self.is_within(line) {
            return Err(Reason::Limit);
        }
        Ok(line)
    }

    // Goes behind a line.
    pub(crate) fn advance(&mut self, line: Line)
        requires stated { IsTrue (is_stated line) }
        requires stands { IsTrue (may_stand (keyword_of line) (place_at self.old)) }
        requires within { IsTrue (is_within line (state_at self.old)) }
        ensures state { state_at self.new ≡ moved line (state_at self.old) }
        ensures stage { self.new.stage ≡ stage_behind line self.old.stage }
        ensures lines { self.new.lines ≡ self.old.lines + 1 }
    {
        self.lines += 1;
        self.commands += u32::from(is_command(line));
        self.dumps += u32::from(line == Line::Dump);
        match (self.stage, line) {
            (Stage::Format, Line::Format { name, levels }) => self.stage = Stage::Frames {
                format: name,
                levels: levels as u32,
            },
            (Stage::Frames { format, levels }, Line::Frames { frames }) => self.stage =
                Stage::Hold {
                    format,
                    levels,
                    frames: frames as u32,
                },
            (
                Stage::Hold {
                    format,
                    levels,
                    frames,
                },
                Line::Hold { hold },
            ) => self.stage = Stage::Body {
                header: Header {
                    format,
                    levels,
                    frames,
                    hold: hold as u32,
                },
            },
            (Stage::Body { .. }, Line::Fork { .. }) => open_fork(&mut self.forks),
            (Stage::Body { .. }, Line::With) => switch_branch(&mut self.forks),
            (Stage::Body { .. }, Line::End) => leave_fork(&mut self.forks),
            (Stage::Body { header }, Line::Close) => self.stage = Stage::Tail { header },
            (Stage::Tail { header }, Line::End) => self.stage = Stage::Over { header },
            _ => {}
        }
    }
}
