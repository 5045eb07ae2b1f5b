//! The header of an image.

ghost use Rattle.std.specs.Prelude.{◌≡◌, ◌≤◌, length, IfErr, IfOk};
ghost use Rattle.pt_names.specs.Names.{layout_of};
ghost use Rattle.pt_image.specs.Headers.{HasFields, HasHeaderFault, IsWrongAt, name_at};

use crate::fault::ImageFault;
use byteorder::{ByteOrder, LittleEndian};
use pt_model::Name;

/// What an image says of itself before its words: the format's number, the levels that its space started with, its
/// frames, and its length in bytes, the header's with it.
#[derive(Clone, Copy, Debug, PartialEq, Eq)]
pub struct Header {
    pub number: u32,
    pub levels: u32,
    pub frames: u32,
    pub length: u64,
}

const FIELDS: u64 = 14;

const NAMES: [Name; 12] = [
    Name::AmdV1,
    Name::VtdSs3,
    Name::VtdSs4,
    Name::VtdSs5,
    Name::X86L4,
    Name::X86L5,
    Name::Vmsa4,
    Name::Vmsa16,
    Name::Vmsa64,
    Name::Sv39,
    Name::Sv48,
    Name::Sv57,
];

/// The format of a number.
fn name_of(number: u8) -> Option<Name>
    ensures { result ≡ name_at number }
{
    NAMES.get(number as usize).copied()
}

/// The log2 of the bytes of a format's page.
fn granule_of(name: Name) -> u32
    ensures { result ≡ (layout_of name).granule }
{
    match name {
        Name::Vmsa16 => 14,
        Name::Vmsa64 => 16,
        _ => 12,
    }
}

/// The most levels of a format's tree.
fn levels_of(name: Name) -> u32
    ensures { result ≡ (layout_of name).levels }
{
    match name {
        Name::AmdV1 => 6,
        Name::VtdSs3 | Name::Vmsa64 | Name::Sv39 => 3,
        Name::VtdSs5 | Name::X86L5 | Name::Sv57 => 5,
        _ => 4,
    }
}

/// The least levels with which a space of a format starts.
fn start_of(name: Name) -> u32
    ensures { result ≡ (layout_of name).start }
{
    if name == Name::AmdV1 {
        3
    } else {
        levels_of(name)
    }
}

/// The fields of an image, or the byte at which the first one begins that is wrong.
#[tactic(auto, unfolding(crate::specs::Bytes::number_at))]
fn read_fields(bytes: &[u8]) -> Result<Header, u32>
    requires { 14 ≤ length bytes.now }
    ensures good { IfOk result (HasFields bytes.now) }
    ensures bad { IfErr result (IsWrongAt bytes.now) }
{
    if &bytes[..8] != b"IOPTIMG1".as_slice() {
        return Err(0);
    }
    let Some(name) = name_of(bytes[8]) else {
        return Err(8);
    };
    let levels = u32::from(bytes[9]);
    if levels < start_of(name) || levels > levels_of(name) {
        return Err(9);
    }
    let frames = LittleEndian::read_u32(&bytes[10..]);
    let granule = granule_of(name);
    if frames == 0 || frames > 1 << (27 - granule) {
        return Err(10);
    }
    Ok(Header {
        number: u32::from(bytes[8]),
        levels,
        frames,
        length: 22 + 8 * (u64::from(frames) << (granule - 3)),
    })
}

/// The header of an image, which may have more bytes behind it; or what is wrong with it: it has fewer than 14 bytes, else
/// one of its fields is wrong or out of its limits, the first, else it has fewer bytes than it says.
pub fn read_header(bytes: &[u8]) -> Result<Header, ImageFault>
    ensures fields { IfOk result (HasFields bytes.now) }
    ensures whole { IfOk result (λ h. h.length ≤ length bytes.now) }
    ensures refused { IfErr result (HasHeaderFault bytes.now) }
{
    let have = bytes.len() as u64;
    if have < FIELDS {
        return Err(ImageFault::Truncated { have, want: FIELDS });
    }
    match read_fields(bytes) {
        Err(offset) => Err(ImageFault::Header { offset }),
        Ok(header) if header.length > have => Err(ImageFault::Truncated {
            have,
            want: header.length,
        }),
        Ok(header) => Ok(header),
    }
}
