// Numbers behind the words that say what they are.
ghost use Rattle.std.specs.Prelude.{◌≡◌, ◌++◌, OnOk};
ghost use Rattle.pt_model.specs.Numbers.{decimal, hexadecimal};
ghost use Rattle.pt_model.specs.Text.{census_text};

use crate::{push_dec, push_hex};
use pt_model::Census;
use pt_num::Memory;

/// Appends a text, and the decimal spelling of a number behind it. After `Memory`, the only error, some of it may stand.
#[inline(always)]
pub fn push_dec_behind(out: &mut Vec<u8>, text: &[u8], value: u64) -> Result<(), Memory>
    ensures { OnOk result (out.new.items ≡ out.old.items ++ (text.now ++ decimal value)) }
{
    out.extend_from_slice(text)?;
    push_dec(out, value)
}

/// Appends a text, and the hexadecimal spelling of a number behind it. After `Memory`, the only error, some of it may stand.
#[inline(always)]
pub fn push_hex_behind(out: &mut Vec<u8>, text: &[u8], value: u64) -> Result<(), Memory>
    ensures { OnOk result (out.new.items ≡ out.old.items ++ (text.now ++ hexadecimal value)) }
{
    out.extend_from_slice(text)?;
    push_hex(out, value)
}

/// Appends a census: its levels, tables, blocks and pages, each behind its name. After `Memory`, the only error, some of it
/// may stand.
pub fn push_census(out: &mut Vec<u8>, census: Census) -> Result<(), Memory>
    ensures { OnOk result (out.new.items ≡ out.old.items ++ census_text census) }
{
    push_dec_behind(out, b"census levels ", u64::from(census.levels))?;
    push_dec_behind(out, b" tables ", census.tables)?;
    push_dec_behind(out, b" blocks ", census.blocks)?;
    push_dec_behind(out, b" pages ", census.pages)?;
    Ok(())
}
