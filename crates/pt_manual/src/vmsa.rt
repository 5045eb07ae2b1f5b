//! The walk of VMSAv8-64 tables.

ghost use Rattle.std.specs.Prelude.{◌≡◌, ◌^◌, ◌<◌, length};
ghost use Rattle.pt_model.specs.Words.{IsSpaceLength};
ghost use Rattle.pt_manual.specs.VmsaWalk as VmsaWalk;
ghost use Rattle.pt_manual.specs.VmsaWalk.{IsGranule, index_at, index_bits, walk};

use crate::Walked;
use crate::descriptor::{Descriptor, entry_log2, read_descriptor};
use crate::granule::{entry_at, frame_at, frames_of};

/// The level at which a walk starts.
fn start_level(granule: u32) -> u32
    ensures { result ≡ VmsaWalk.start_level granule }
{
    if granule == 16 { 1 } else { 0 }
}

/// The index of an address in a table of a level.
fn index_at(granule: u32, level: u32, address: u64) -> u64
    requires a_granule { IsGranule granule }
    requires a_level { level < 4 }
    ensures index { result ≡ index_at granule level address }
    ensures within { result < 2 ^ index_bits granule }
{
    (address >> entry_log2(granule, level)) % (1 << (granule - 3))
}

/// The walk of an input address of 48 bits (in bytes) through VMSAv8-64 tables of a granule of `2^granule` bytes, over
/// the words of a space: the root, the tags and the entries.
///
/// `None` where a descriptor on the way is invalid (bit 0 clear), or the address is past the input's bits. `Alien` where
/// the root names no frame or another level than that of the first table (then with the start level), or a descriptor
/// is of no form of the profile (with the level of its table). Source: Arm Architecture Reference Manual for A-profile
/// architecture, "The AArch64 Virtual Memory System Architecture".
pub fn walk_vmsa(words: &[u64], granule: u32, address: u64) -> Walked
    requires a_granule { IsGranule granule }
    requires space { IsSpaceLength (index_bits granule) (length words.now) }
    ensures { result ≡ walk words.now granule address }
{
    let start = start_level(granule);
    let mut frame = words[0] / 8;
    if frame >= frames_of(granule, words) || words[0] % 8 + start as u64 != 3 {
        return Walked::Alien { level: start };
    }
    if address >> 48 != 0 {
        return Walked::None;
    }
    for level in start..4 {
        let number = index_at(granule, level, address);
        match read_descriptor(granule, level, entry_at(granule, words, frame, number)) {
            Descriptor::Invalid => return Walked::None,
            Descriptor::Reserved => return Walked::Alien { level },
            Descriptor::Page {
                address: page,
                log2,
                prot,
            } => {
                let out = page + address % (1 << log2);
                return Walked::Page { out, prot };
            }
            Descriptor::Table { address: table } => {
                let Some(next) = frame_at(granule, words, table) else {
                    return Walked::Alien { level };
                };
                frame = next;
            }
        }
    }
    Walked::Alien { level: 3 }
}
