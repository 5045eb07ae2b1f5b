// A line of text, made from its end.
ghost use Rattle.std.specs.Prelude.{◌≡◌, ℕ, ◌+◌, ◌<◌, ◌≤◌, ◌++◌, List, [], length, drop, false, OnOk, OnErr};
ghost use Rattle.std.specs.Fmt.{digits, digit_glyph};
ghost use Rattle.pt_model.specs.Numbers.{decimal, hexadecimal};
ghost use Rattle.pt_stream.specs.Lines.{line_room, HasRoom, GrowsBy};

use itoa::write_digits;
use pt_num::Memory;
use std::marker::Model;

// The most bytes of a line.
const ROOM: usize = 128;

const GLYPHS: [u8; 16] = *b"0123456789abcdef";

fn digit_byte(digit: u8) -> u8
    requires { digit < 16 }
    ensures { result ≡ digit_glyph false digit }
{
    GLYPHS[digit as usize]
}

// Writes the hexadecimal digits so that they end at `end`, and says where they begin.
fn write_hex_digits(bytes: &mut [u8], end: usize, value: u64) -> usize
    requires { (16 ≤ end) × (end ≤ length bytes.old) }
    ensures start { (end ≤ result + 16) × (result ≤ end) }
    ensures written { drop result bytes.new ≡ digits 16 false value ++ drop end bytes.old }
{
    let mut rest = value;
    for turn in 0..16usize {
        let at = end - 1 - turn;
        bytes[at] = digit_byte((rest % 16) as u8);
        rest /= 16;
        if rest == 0 {
            return at;
        }
    }
    end - 16
}

/// A text of at most 128 bytes that is made from its end: what is put stands before what was put
/// earlier. So digits are written where they stay, and the whole is appended by one copy.
#[derive(Debug, Drop)]
pub struct Line {
    bytes: [u8; ROOM],
    start: usize,
}

impl Model for Line {
    ghost Value = { List ℕ };

    ghost view = { λ l. drop l.start l.bytes };

    ghost invariant = { λ l. l.start ≤ line_room };
}

impl Line {
    /// The empty line.
    pub fn new() -> Line
        ensures { result ≡ [] }
    {
        Line {
            bytes: [0; ROOM],
            start: ROOM,
        }
    }

    /// Puts a text in front.
    #[inline(always)]
    pub fn put(&mut self, text: &[u8])
        requires { HasRoom (length text.now) self.old }
        ensures { self.new ≡ text.now ++ self.old }
    {
        let end = self.start;
        self.start -= text.len();
        self.bytes[self.start..end].copy_from_slice(text);
    }

    /// Puts the decimal spelling of a number in front.
    pub fn put_dec(&mut self, value: u64)
        requires { HasRoom 20 self.old }
        ensures line { self.new ≡ decimal value ++ self.old }
        ensures short { GrowsBy 20 self.old self.new }
    {
        self.start = write_digits(value, &mut self.bytes, self.start);
    }

    /// Puts the hexadecimal spelling of a number in front.
    pub fn put_hex(&mut self, value: u64)
        requires { HasRoom 18 self.old }
        ensures line { self.new ≡ hexadecimal value ++ self.old }
        ensures short { GrowsBy 18 self.old self.new }
    {
        let start = write_hex_digits(&mut self.bytes, self.start, value);
        self.bytes[start - 1] = b'x';
        self.bytes[start - 2] = b'0';
        self.start = start - 2;
    }

    /// Appends the line. After `Memory`, the only error, the vector is as before.
    pub fn push_to(&self, out: &mut Vec<u8>) -> Result<(), Memory>
        ensures ok { OnOk result (out.new.items ≡ out.old.items ++ self.now) }
        ensures err { OnErr result (out.new.items ≡ out.old.items) }
    {
        out.extend_from_slice(&self.bytes[self.start..])?;
        Ok(())
    }
}
