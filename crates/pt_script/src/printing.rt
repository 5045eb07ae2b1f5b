// The text of a script.
ghost use Rattle.std.specs.Prelude.{◌≡◌, ◌++◌, ◌∷◌, [], IfOk, OnOk, OnErr};
ghost use Rattle.pt_model.specs.Text.{prot_text};
ghost use Rattle.pt_script.specs.Lines.{text_of, name_text, command_line, ask_line};
ghost use Rattle.pt_script.specs.Text.{script_text};
ghost use Rattle.pt_script.specs.Numbered.{body_lines, tail_lines};
ghost use Rattle.pt_script.specs.Scripts.{text_in};

use crate::line::Line;
use crate::whole::Script;
use pt_model::{Ask, AskWhat, Command, Name, Prot, What};
use pt_num::Memory;
use pt_stream::{push_dec_behind, push_hex_behind};
use std::alloc::Global;

/// The name of a format, as a script's first line has it.
pub fn name_text(name: Name) -> &'static [u8]
    ensures { result.now ≡ name_text name }
{
    match name {
        Name::AmdV1 => b"amdv1",
        Name::VtdSs3 => b"vtdss3",
        Name::VtdSs4 => b"vtdss4",
        Name::VtdSs5 => b"vtdss5",
        Name::X86L4 => b"x86-4",
        Name::X86L5 => b"x86-5",
        Name::Vmsa4 => b"vmsa4",
        Name::Vmsa16 => b"vmsa16",
        Name::Vmsa64 => b"vmsa64",
        Name::Sv39 => b"sv39",
        Name::Sv48 => b"sv48",
        Name::Sv57 => b"sv57",
    }
}

/// Appends the text of a permission, `r` or `rw`. After `Memory` the vector is as before.
pub fn push_prot(out: &mut Vec<u8>, prot: Prot) -> Result<(), Memory>
    ensures ok { OnOk result (out.new.items ≡ out.old.items ++ prot_text prot) }
    ensures err { OnErr result (out.new.items ≡ out.old.items) }
{
    let text: &[u8] = match prot {
        Prot::Read => b"r",
        Prot::ReadWrite => b"rw",
    };
    out.extend_from_slice(text)?;
    Ok(())
}

fn push_format(out: &mut Vec<u8>, name: Name, levels: u64) -> Result<(), Memory>
    ensures { OnOk result (out.new.items ≡ out.old.items ++ text_of (Line.Format name levels)) }
{
    out.extend_from_slice(b"format ")?;
    out.extend_from_slice(name_text(name))?;
    if name == Name::AmdV1 {
        push_dec_behind(out, b" levels ", levels)?;
    }
    Ok(())
}

fn push_map(out: &mut Vec<u8>, va: u64, pa: u64, len: u64, prot: Prot) -> Result<(), Memory>
    ensures { OnOk result (out.new.items ≡ out.old.items ++ text_of (Line.Map va pa len prot)) }
{
    push_hex_behind(out, b"map ", va)?;
    push_hex_behind(out, b" ", pa)?;
    push_hex_behind(out, b" ", len)?;
    out.extend_from_slice(b" ")?;
    push_prot(out, prot)?;
    Ok(())
}

fn push_unmap(out: &mut Vec<u8>, va: u64, len: u64) -> Result<(), Memory>
    ensures { OnOk result (out.new.items ≡ out.old.items ++ text_of (Line.Unmap va len)) }
{
    push_hex_behind(out, b"unmap ", va)?;
    push_hex_behind(out, b" ", len)
}

fn push_words(out: &mut Vec<u8>, line: Line) -> Result<(), Memory>
    ensures { OnOk result (out.new.items ≡ out.old.items ++ text_of line) }
{
    match line {
        Line::Format { name, levels } => push_format(out, name, levels)?,
        Line::Frames { frames } => push_dec_behind(out, b"frames ", frames)?,
        Line::Hold { hold } => push_dec_behind(out, b"hold ", hold)?,
        Line::Map { va, pa, len, prot } => push_map(out, va, pa, len, prot)?,
        Line::Unmap { va, len } => push_unmap(out, va, len)?,
        Line::Lookup { va } => push_hex_behind(out, b"lookup ", va)?,
        Line::Dump => out.extend_from_slice(b"dump")?,
        Line::Release => out.extend_from_slice(b"release")?,
        Line::Fork { at } => push_hex_behind(out, b"fork ", at)?,
        Line::With => out.extend_from_slice(b"with")?,
        Line::End => out.extend_from_slice(b"end")?,
        Line::Close => out.extend_from_slice(b"close")?,
        Line::Walk { va } => push_hex_behind(out, b"walk ", va)?,
        Line::Census => out.extend_from_slice(b"census")?,
    }
    Ok(())
}

fn push_line(out: &mut Vec<u8>, line: Line) -> Result<(), Memory>
    ensures { OnOk result (out.new.items ≡ out.old.items ++ script_text (line ∷ [])) }
{
    push_words(out, line)?;
    out.extend_from_slice(b"\n")?;
    Ok(())
}

fn command_line(what: What) -> Line
    ensures { result ≡ command_line what }
{
    match what {
        What::Map { va, pa, len, prot } => Line::Map { va, pa, len, prot },
        What::Unmap { va, len } => Line::Unmap { va, len },
        What::Lookup { va } => Line::Lookup { va },
        What::Dump => Line::Dump,
        What::Release => Line::Release,
        What::Fork { at } => Line::Fork { at },
        What::With => Line::With,
        What::End => Line::End,
    }
}

fn ask_line(what: AskWhat) -> Line
    ensures { result ≡ ask_line what }
{
    match what {
        AskWhat::Walk { va } => Line::Walk { va },
        AskWhat::Census => Line::Census,
    }
}

fn push_body(out: &mut Vec<u8>, commands: &[Command]) -> Result<(), Memory>
    ensures { OnOk result (out.new.items ≡ out.old.items ++ script_text (body_lines commands.now)) }
{
    for command in commands {
        push_line(out, command_line(command.what))?;
    }
    Ok(())
}

fn push_tail(out: &mut Vec<u8>, asks: &[Ask]) -> Result<(), Memory>
    ensures { OnOk result (out.new.items ≡ out.old.items ++ script_text (tail_lines asks.now)) }
{
    for ask in asks {
        push_line(out, ask_line(ask.what))?;
    }
    Ok(())
}

fn push_header(out: &mut Vec<u8>, script: &Script) -> Result<(), Memory>
    ensures { OnOk result (out.new.items ≡ out.old.items ++ script_text
        (Line.Format script.now.format script.now.levels ∷ Line.Frames script.now.frames ∷ Line.Hold script.now.hold ∷ [])) }
{
    push_line(
        out,
        Line::Format {
            name: script.format,
            levels: u64::from(script.levels),
        },
    )?;
    push_line(
        out,
        Line::Frames {
            frames: u64::from(script.frames),
        },
    )?;
    push_line(
        out,
        Line::Hold {
            hold: u64::from(script.hold),
        },
    )
}

/// The one text of this script.
pub fn print(alloc: Global, script: &Script) -> Result<Vec<u8>, Memory>
    ensures { IfOk result (λ v. v.items ≡ text_in script.now) }
{
    let mut out = Vec::new(alloc);
    push_header(&mut out, script)?;
    push_body(&mut out, script.body.commands())?;
    push_line(&mut out, Line::Close)?;
    push_tail(&mut out, script.tail.asks())?;
    push_line(&mut out, Line::End)?;
    Ok(out)
}
