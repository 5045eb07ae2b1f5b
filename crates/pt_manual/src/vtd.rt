//! The walk of VT-d second-stage tables.

ghost use Rattle.std.specs.Prelude.{◌≡◌, ◌≤◌, length};
ghost use Rattle.pt_model.specs.Words.{IsSpaceLength};
ghost use Rattle.pt_manual.specs.VtdWalk.{manual, walk};

use crate::Walked;
use crate::bits::{address_in, has, has_only, is_aligned};
use crate::step::{Entries, Step};
use crate::walk::walk_by;

const R: u64 = 1 << 0;

const W: u64 = 1 << 1;

const PS: u64 = 1 << 7;

/// The entries of second-stage tables.
struct Vtd;

impl Entries for Vtd {
    ghost manual = { manual };

    fn number_of(level: u32) -> u32 {
        level + 1
    }

    fn read_entry(level: u32, word: u64) -> Step {
        let level = level + 1;
        let log2 = 3 + 9 * level;
        let address = address_in(word);
        let bits = word - address;
        let read = has(R, bits);
        let write = has(W, bits);
        let page = Step::Page {
            address,
            log2,
            read,
            write,
        };
        let next = Step::Next {
            address,
            read,
            write,
        };
        if !(read || write) {
            Step::NotPresent
        } else if has_only(0, R + W, bits) && level == 1 {
            page
        } else if has_only(PS, R + W, bits)
            && (2 <= level && (level <= 3 && is_aligned(log2, address)))
        {
            page
        } else if has_only(0, R + W, bits) && 2 <= level {
            next
        } else {
            Step::Reserved
        }
    }
}

/// The walk of an input address (in bytes) through second-stage tables of `levels` levels, over the words of a
/// space: the root, the tags and the entries.
///
/// `None` where an entry on the way isn't present (neither R nor W), or the address is past the input's bits.
/// `Alien` where the root names no frame or another number of levels (then with `levels`), or an entry is of no
/// form of the profile (with the manual's level of its table). Source: Intel VT-d Architecture Specification,
/// "Second-Stage Translation".
pub fn walk_vtdss(words: &[u64], levels: u32, address: u64) -> Walked
    requires space { IsSpaceLength 9 (length words.now) }
    requires low { 3 ≤ levels }
    requires high { levels ≤ 5 }
    ensures { result ≡ walk words.now levels address }
{
    walk_by::<Vtd>(words, levels, 12 + 9 * levels, levels, address)
}
