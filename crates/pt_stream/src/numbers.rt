// The one spelling of a number, in decimal and in hexadecimal.
ghost use Rattle.std.specs.Prelude.{◌≡◌, ◌≢◌, ℕ, ◌+◌, ◌^◌, ◌<◌, ◌≤◌, ◌⊎◌, ◌↔◌, ◌++◌, false, IsTrue, IfSome, IfNone, OnOk, OnErr};
ghost use Rattle.std.specs.Fmt.{digits, digit_glyph};
ghost use Rattle.pt_model.specs.Numbers.{decimal, hexadecimal, HasOneNumber};

use crate::Line;
use pt_num::Memory;

// The digit of which a byte is the one glyph.
fn digit_in(byte: u8, base: u64) -> Option<u64>
    requires base { (base ≡ 10) ⊎ (base ≡ 16) }
    ensures found { IfSome result (λ d. (d < base) × (byte ≡ digit_glyph false d)) }
    ensures none { IfNone result ((d : ℕ) → d < base → byte ≢ digit_glyph false d) }
{
    let digit = if byte < b'a' {
        if byte < b'0' || byte > b'9' {
            return None;
        }
        byte - b'0'
    } else {
        if byte > b'f' {
            return None;
        }
        byte - (b'a' - 10)
    };
    let digit = u64::from(digit);
    if digit < base { Some(digit) } else { None }
}

// The digits are read from the first to the last. A zero in front stands alone.
fn read_digits(text: &[u8], base: u64) -> Option<u64>
    requires base { (base ≡ 10) ⊎ (base ≡ 16) }
    ensures found { IfSome result (λ n. text.now ≡ digits base false n) }
    ensures none { IfNone result ((n : ℕ) → n < 2 ^ 64 → text.now ≢ digits base false n) }
{
    if text.is_empty() {
        return None;
    }
    let mut value: u64 = digit_in(text[0], base)?;
    if value == 0 && text.len() > 1 {
        return None;
    }
    for at in 1..text.len() {
        let digit = digit_in(text[at], base)?;
        value = value.checked_mul(base)?.checked_add(digit)?;
    }
    Some(value)
}

/// The number of which this is the decimal spelling: digits without leading zeros, `0` for zero.
/// `None` comes exactly where it is the spelling of no number below `2^64`.
pub fn read_dec(text: &[u8]) -> Option<u64>
    ensures found { IfSome result (λ n. text.now ≡ decimal n) }
    ensures none { IfNone result ((n : ℕ) → n < 2 ^ 64 → text.now ≢ decimal n) }
{
    read_digits(text, 10)
}

/// The number of which this is the hexadecimal spelling: `0x` and lower-case digits without leading
/// zeros, `0x0` for zero. `None` comes exactly where it is the spelling of no number below `2^64`.
pub fn read_hex(text: &[u8]) -> Option<u64>
    ensures found { IfSome result (λ n. text.now ≡ hexadecimal n) }
    ensures none { IfNone result ((n : ℕ) → n < 2 ^ 64 → text.now ≢ hexadecimal n) }
{
    match text {
        [b'0', b'x', digits @ ..] => read_digits(digits, 16),
        _ => None,
    }
}

/// Appends the decimal spelling. After `Memory`, the only error, the vector is as before.
pub fn push_dec(out: &mut Vec<u8>, value: u64) -> Result<(), Memory>
    ensures ok { OnOk result (out.new.items ≡ out.old.items ++ decimal value) }
    ensures err { OnErr result (out.new.items ≡ out.old.items) }
{
    let mut line = Line::new();
    line.put_dec(value);
    line.push_to(out)
}

/// Appends the hexadecimal spelling. After `Memory`, the only error, the vector is as before.
pub fn push_hex(out: &mut Vec<u8>, value: u64) -> Result<(), Memory>
    ensures ok { OnOk result (out.new.items ≡ out.old.items ++ hexadecimal value) }
    ensures err { OnErr result (out.new.items ≡ out.old.items) }
{
    let mut line = Line::new();
    line.put_hex(value);
    line.push_to(out)
}

/// No two numbers have one spelling, so what was pushed is read again.
pub fn one_number()
    ensures decimal { HasOneNumber decimal }
    ensures hexadecimal { HasOneNumber hexadecimal }
{}
