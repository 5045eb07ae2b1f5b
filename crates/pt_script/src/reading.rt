// The lines and the words of a text.
ghost use Rattle.std.specs.Prelude.{◌≡◌, ◌≢◌, ◌+◌, ◌<◌, ◌≤◌, ◌==◌, ℕ, List, [], ◌∷◌, ◌++◌, count_by, length, codes, slice_index, IfSome, IfNone, IsSome, IsTrue, ◌↔◌};
ghost use Rattle.std.specs.List.{position_or_len};
ghost use Rattle.pt_model.specs.Text.{prot_text};
ghost use Rattle.pt_model.specs.declared.block.Prot.{Prot};
ghost use Rattle.pt_model.specs.declared.command.Name.{Name};
ghost use Rattle.pt_script.specs.declared.line.Line.{Line};
ghost use Rattle.pt_script.specs.declared.line.Keyword.{Keyword};
ghost use Rattle.pt_script.specs.Lines.{keyword_of, keyword_text, operands, text_of, name_text, levels_of, is_stated};
ghost use Rattle.pt_script.specs.Text.{words, word, words_of, HasShape, HasFormatShape, IsFormatRest, HasNoLine};

use crate::line::{Keyword, Line};
use pt_model::{Name, Prot};
use pt_stream::{read_dec, read_hex};

fn place_in(bytes: &[u8], byte: u8) -> usize
    ensures within { result ≤ length bytes.now }
    ensures first { result ≡ position_or_len (λ b. b == byte) bytes.now }
    ensures found { result < length bytes.now → slice_index bytes.now result ≡ byte }
{
    let mut end = 0;
    while end < bytes.len() && bytes[end] != byte {
        end += 1;
    }
    end
}

// The first line, without its line feed, and what follows it.
pub(crate) fn split_line(bytes: &[u8]) -> Option<(&[u8], &[u8])>
    ensures cut { IfSome result (λ x. bytes.now ≡ x.0.now ++ 10 ∷ x.1.now) }
    ensures line { IfSome result (λ x. HasNoLine x.0.now) }
    ensures none { IfNone result (HasNoLine bytes.now) }
{
    let end = place_in(bytes, b'\n');
    if end < bytes.len() {
        Some((&bytes[..end], &bytes[end + 1..]))
    } else {
        None
    }
}

// The first word, and what stands behind the space that ends it.
pub(crate) fn split_word(raw: &[u8]) -> (&[u8], &[u8])
    ensures more { length (words raw.now) ≢ 1 → words raw.now ≡ result.0.now ∷ words result.1.now }
    ensures two { length (words raw.now) ≡ 2 → words raw.now ≡ result.0.now ∷ result.1.now ∷ [] }
    ensures one { length (words raw.now) ≡ 1 → words raw.now ≡ result.0.now ∷ [] }
    ensures first { word 0 raw.now ≡ result.0.now }
    ensures second { word 1 raw.now ≡ word 0 result.1.now }
    ensures third { word 2 raw.now ≡ word 1 result.1.now }
{
    let end = place_in(raw, b' ');
    if end < raw.len() {
        (&raw[..end], &raw[end + 1..])
    } else {
        (raw, &[])
    }
}

fn space_count(raw: &[u8]) -> usize
    ensures { result ≡ count_by (λ b. b == 32) raw.now }
{
    let mut count = 0;
    for byte in raw {
        count += usize::from(*byte == b' ');
    }
    count
}

fn word_count(raw: &[u8]) -> usize
    ensures { result ≡ length (words raw.now) }
{
    space_count(raw) + 1
}

pub(crate) fn keyword_in(word: &[u8]) -> Option<Keyword>
    ensures found { IfSome result (λ k. word.now ≡ keyword_text k) }
    ensures none { IfNone result ((k : Keyword) → word.now ≢ keyword_text k) }
{
    match word {
        b"format" => Some(Keyword::Format),
        b"frames" => Some(Keyword::Frames),
        b"hold" => Some(Keyword::Hold),
        b"map" => Some(Keyword::Map),
        b"unmap" => Some(Keyword::Unmap),
        b"lookup" => Some(Keyword::Lookup),
        b"dump" => Some(Keyword::Dump),
        b"release" => Some(Keyword::Release),
        b"fork" => Some(Keyword::Fork),
        b"with" => Some(Keyword::With),
        b"end" => Some(Keyword::End),
        b"close" => Some(Keyword::Close),
        b"walk" => Some(Keyword::Walk),
        b"census" => Some(Keyword::Census),
        _ => None,
    }
}

fn name_in(word: &[u8]) -> Option<Name>
    ensures found { IfSome result (λ name. word.now ≡ name_text name) }
    ensures none { IfNone result ((name : Name) → word.now ≢ name_text name) }
{
    match word {
        b"amdv1" => Some(Name::AmdV1),
        b"vtdss3" => Some(Name::VtdSs3),
        b"vtdss4" => Some(Name::VtdSs4),
        b"vtdss5" => Some(Name::VtdSs5),
        b"x86-4" => Some(Name::X86L4),
        b"x86-5" => Some(Name::X86L5),
        b"vmsa4" => Some(Name::Vmsa4),
        b"vmsa16" => Some(Name::Vmsa16),
        b"vmsa64" => Some(Name::Vmsa64),
        b"sv39" => Some(Name::Sv39),
        b"sv48" => Some(Name::Sv48),
        b"sv57" => Some(Name::Sv57),
        _ => None,
    }
}

fn prot_in(word: &[u8]) -> Option<Prot>
    ensures found { IfSome result (λ prot. word.now ≡ prot_text prot) }
    ensures none { IfNone result ((prot : Prot) → word.now ≢ prot_text prot) }
{
    match word {
        b"r" => Some(Prot::Read),
        b"rw" => Some(Prot::ReadWrite),
        _ => None,
    }
}

fn levels_of(name: Name) -> u64
    ensures { result ≡ levels_of name }
{
    match name {
        Name::AmdV1 | Name::VtdSs3 | Name::Vmsa64 | Name::Sv39 => 3,
        Name::VtdSs4 | Name::X86L4 | Name::Vmsa4 | Name::Vmsa16 | Name::Sv48 => 4,
        Name::VtdSs5 | Name::X86L5 | Name::Sv57 => 5,
    }
}

fn words_of(keyword: Keyword) -> usize
    ensures { result ≡ words_of keyword }
{
    match keyword {
        Keyword::Map => 5,
        Keyword::Unmap => 3,
        Keyword::Frames | Keyword::Hold | Keyword::Lookup | Keyword::Fork | Keyword::Walk => 2,
        _ => 1,
    }
}

// Whether a line has the shape of a format line.
fn has_format_shape(raw: &[u8]) -> bool
    ensures { IsTrue result ↔ HasFormatShape raw.now }
{
    let count = word_count(raw);
    let (_, rest) = split_word(raw);
    let (name, rest) = split_word(rest);
    if name == b"amdv1".as_slice() {
        count == 4 && split_word(rest).0 == b"levels".as_slice()
    } else {
        count == 2
    }
}

pub(crate) fn has_shape(keyword: Keyword, raw: &[u8]) -> bool
    ensures { IsTrue result ↔ HasShape keyword raw.now }
{
    if keyword == Keyword::Format {
        has_format_shape(raw)
    } else {
        word_count(raw) == words_of(keyword)
    }
}

// The words of a `format` line behind the first.
fn format_in(rest: &[u8]) -> Option<Line>
    requires { IsFormatRest rest.now }
    ensures found { IfSome result (λ l. words rest.now ≡ operands l) }
    ensures stated { IfSome result (λ l. IsTrue (is_stated l)) }
    ensures form { IfSome result (λ l. keyword_of l ≡ Keyword.Format) }
    ensures none { IfNone result
        ((l : Line) → IsTrue (is_stated l) → keyword_of l ≡ Keyword.Format → words rest.now ≢ operands l) }
{
    let (name, rest) = split_word(rest);
    let Some(name) = name_in(name) else {
        return None
    };
    let levels = match name {
        Name::AmdV1 => read_dec(split_word(rest).1)?,
        _ => levels_of(name),
    };
    Some(Line::Format { name, levels })
}

fn map_in(rest: &[u8]) -> Option<Line>
    requires { length (words rest.now) ≡ 4 }
    ensures found { IfSome result (λ l. words rest.now ≡ operands l) }
    ensures stated { IfSome result (λ l. IsTrue (is_stated l)) }
    ensures form { IfSome result (λ l. keyword_of l ≡ Keyword.Map) }
    ensures none { IfNone result
        ((l : Line) → IsTrue (is_stated l) → keyword_of l ≡ Keyword.Map → words rest.now ≢ operands l) }
{
    let (va, rest) = split_word(rest);
    let (pa, rest) = split_word(rest);
    let (len, prot) = split_word(rest);
    Some(Line::Map {
        va: read_hex(va)?,
        pa: read_hex(pa)?,
        len: read_hex(len)?,
        prot: prot_in(prot)?,
    })
}

fn unmap_in(rest: &[u8]) -> Option<Line>
    requires { length (words rest.now) ≡ 2 }
    ensures found { IfSome result (λ l. words rest.now ≡ operands l) }
    ensures stated { IfSome result (λ l. IsTrue (is_stated l)) }
    ensures form { IfSome result (λ l. keyword_of l ≡ Keyword.Unmap) }
    ensures none { IfNone result
        ((l : Line) → IsTrue (is_stated l) → keyword_of l ≡ Keyword.Unmap → words rest.now ≢ operands l) }
{
    let (va, len) = split_word(rest);
    Some(Line::Unmap {
        va: read_hex(va)?,
        len: read_hex(len)?,
    })
}

// The line of this form that has these words.
fn line_of_words(keyword: Keyword, raw: &[u8]) -> Option<Line>
    requires first { word 0 raw.now ≡ keyword_text keyword }
    requires shape { HasShape keyword raw.now }
    ensures found { IfSome result (λ l. words raw.now ≡ keyword_text keyword ∷ operands l) }
    ensures stated { IfSome result (λ l. IsTrue (is_stated l)) }
    ensures form { IfSome result (λ l. keyword_of l ≡ keyword) }
    ensures none { IfNone result
        ((l : Line) → IsTrue (is_stated l) → keyword_of l ≡ keyword → words raw.now ≢ keyword_text keyword ∷ operands l) }
{
    let (_, rest) = split_word(raw);
    match keyword {
        Keyword::Format => format_in(rest),
        Keyword::Frames => read_dec(rest).map(|frames| Line::Frames { frames }),
        Keyword::Hold => read_dec(rest).map(|hold| Line::Hold { hold }),
        Keyword::Map => map_in(rest),
        Keyword::Unmap => unmap_in(rest),
        Keyword::Lookup => read_hex(rest).map(|va| Line::Lookup { va }),
        Keyword::Dump => Some(Line::Dump),
        Keyword::Release => Some(Line::Release),
        Keyword::Fork => read_hex(rest).map(|at| Line::Fork { at }),
        Keyword::With => Some(Line::With),
        Keyword::End => Some(Line::End),
        Keyword::Close => Some(Line::Close),
        Keyword::Walk => read_hex(rest).map(|va| Line::Walk { va }),
        Keyword::Census => Some(Line::Census),
    }
}

// The line of this form that is spelled so.
pub(crate) fn line_in(keyword: Keyword, raw: &[u8]) -> Option<Line>
    requires first { word 0 raw.now ≡ keyword_text keyword }
    requires shape { HasShape keyword raw.now }
    ensures found { IfSome result (λ l. raw.now ≡ text_of l) }
    ensures stated { IfSome result (λ l. IsTrue (is_stated l)) }
    ensures form { IfSome result (λ l. keyword_of l ≡ keyword) }
    ensures none { IfNone result ((l : Line) → IsTrue (is_stated l) → keyword_of l ≡ keyword → raw.now ≢ text_of l) }
{
    line_of_words(keyword, raw)
}
