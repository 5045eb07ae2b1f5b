//! The walk of x86-64 tables.

ghost use Rattle.std.specs.Prelude.{◌≡◌, ◌≤◌, length};
ghost use Rattle.pt_model.specs.Words.{IsSpaceLength};
ghost use Rattle.pt_manual.specs.X86Walk.{manual, walk};

use crate::Walked;
use crate::bits::{address_in, has, has_only, is_aligned};
use crate::step::{Entries, Step};
use crate::walk::walk_by;

const P: u64 = 1 << 0;

const RW: u64 = 1 << 1;

const US: u64 = 1 << 2;

const A: u64 = 1 << 5;

const D: u64 = 1 << 6;

const PS: u64 = 1 << 7;

/// The entries of x86-64 tables.
struct X86;

impl Entries for X86 {
    ghost manual = { manual };

    fn number_of(level: u32) -> u32 {
        level + 1
    }

    fn read_entry(level: u32, word: u64) -> Step {
        let level = level + 1;
        let log2 = 3 + 9 * level;
        let address = address_in(word);
        let bits = word - address;
        let write = has(RW, bits);
        let page = Step::Page {
            address,
            log2,
            read: true,
            write,
        };
        let next = Step::Next {
            address,
            read: true,
            write,
        };
        if !has(P, bits) {
            Step::NotPresent
        } else if has_only(P + US + A + D, RW, bits) && level == 1 {
            page
        } else if has_only(P + US + A + D + PS, RW, bits)
            && (2 <= level && (level <= 3 && is_aligned(log2, address)))
        {
            page
        } else if has_only(P + US + A, RW, bits) && 2 <= level {
            next
        } else {
            Step::Reserved
        }
    }
}

/// The walk of an input address (in bytes) of the lower canonical half through tables of `levels` levels, over the
/// words of a space: the root, the tags and the entries.
///
/// `None` where an entry on the way isn't present (P clear), or the address is past the lower half. `Alien` where
/// the root names no frame or another number of levels (then with `levels`), or an entry is of no form of the
/// profile (with the manual's level of its table). Source: Intel SDM Volume 3, 4-level and 5-level paging.
pub fn walk_x86(words: &[u64], levels: u32, address: u64) -> Walked
    requires space { IsSpaceLength 9 (length words.now) }
    requires low { 4 ≤ levels }
    requires high { levels ≤ 5 }
    ensures { result ≡ walk words.now levels address }
{
    walk_by::<X86>(words, levels, 11 + 9 * levels, levels, address)
}
