//! The walk of AMD tables of I/O pages, version 1.

ghost use Rattle.std.specs.Prelude.{◌≡◌, ◌+◌, ◌*◌, ◌^◌, ◌<◌, ◌≤◌, length};
ghost use Rattle.pt_model.specs.Words.{IsSpaceLength};
ghost use Rattle.pt_manual.specs.AmdWalk as AmdWalk;
ghost use Rattle.pt_manual.specs.AmdWalk.{manual, next_level, others_in, walk};

use crate::Walked;
use crate::bits::{address_in, has, has_only, is_aligned};
use crate::space::frames_of;
use crate::step::{Entries, Step};
use crate::walk::walk_from;

const PR: u64 = 1 << 0;

const IR: u64 = 1 << 61;

const IW: u64 = 1 << 62;

/// The next-level field in bits 11:9 of a word.
fn next_level_in(word: u64) -> u64
    ensures level { result ≡ next_level word }
    ensures within { result < 2 ^ 3 }
{
    word >> 9 & 7
}

/// The bits that are neither of the address nor of the next-level field.
fn others_of(word: u64) -> u64
    ensures { result ≡ others_in word }
{
    word - address_in(word) - (next_level_in(word) << 9)
}

/// The lowest clear bit of an address at or above bit 12.
fn lowest_clear(address: u64) -> u32
    ensures clear { result ≡ AmdWalk.lowest_clear address }
    ensures within { result ≤ 76 }
{
    12 + (address >> 12).trailing_ones()
}

/// The entries of AMD tables.
struct Amd;

impl Entries for Amd {
    ghost manual = { manual };

    fn number_of(level: u32) -> u32 {
        level + 1
    }

    fn read_entry(level: u32, word: u64) -> Step {
        let level = level + 1;
        let log2 = 3 + 9 * level;
        let address = address_in(word);
        let next = next_level_in(word);
        let bits = others_of(word);
        let read = has(IR, bits);
        let write = has(IW, bits);
        let coded = lowest_clear(address) + 1;
        if !has(PR, bits) {
            Step::NotPresent
        } else if !has_only(PR, IR + IW, bits) {
            Step::Reserved
        } else if next == 0 && (level <= 3 && is_aligned(log2, address)) {
            Step::Page {
                address,
                log2,
                read,
                write,
            }
        } else if next == 7 && (level <= 3 && (log2 < coded && coded < 9 + log2)) {
            Step::Page {
                address: (address >> coded) << coded,
                log2: coded,
                read,
                write,
            }
        } else if next + 1 == level as u64 && 2 <= level {
            Step::Next {
                address,
                read,
                write,
            }
        } else {
            Step::Reserved
        }
    }
}

/// The walk of an input address (in bytes) through AMD tables of as many levels as the root's mode says, over the words
/// of a space: the root, the tags and the entries.
///
/// `None` where an entry on the way isn't present (PR clear), or the address is past the mode's bits. `Alien` where the
/// root names no frame or a mode that isn't from 3 to 6 (then with 6), or an entry is of no form of the profile (with
/// the manual's level of its table). Source: AMD IOMMU Specification, "I/O Page Tables for Host Translations".
pub fn walk_amdv1(words: &[u64], address: u64) -> Walked
    requires { IsSpaceLength 9 (length words.now) }
    ensures { result ≡ walk words.now address }
{
    let frame = words[0] / 8;
    let mode = (words[0] % 8) as u32 + 1;
    if frame >= frames_of(words) || mode < 3 || mode > 6 {
        return Walked::Alien { level: 6 };
    }
    if mode < 6 && address >> (12 + 9 * mode) != 0 {
        return Walked::None;
    }
    walk_from::<Amd>(words, address, mode, frame)
}
