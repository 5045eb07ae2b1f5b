//! The walk of RISC-V tables.

ghost use Rattle.std.specs.Prelude.{◌≡◌, ◌-◌, ◌*◌, ◌^◌, ◌<◌, ◌≤◌, length};
ghost use Rattle.pt_model.specs.Words.{IsSpaceLength};
ghost use Rattle.pt_manual.specs.RiscvWalk.{manual, number_in, others_in, walk};

use crate::Walked;
use crate::bits::{has, has_only, is_aligned};
use crate::step::{Entries, Step};
use crate::walk::walk_by;

const V: u64 = 1 << 0;

const R: u64 = 1 << 1;

const W: u64 = 1 << 2;

const U: u64 = 1 << 4;

const A: u64 = 1 << 6;

const D: u64 = 1 << 7;

const N: u64 = 1 << 63;

/// The address of the page number in bits 53:10 of a word.
fn address_in(word: u64) -> u64
    ensures address { result ≡ number_in word * 2 ^ 12 }
    ensures within { result < 2 ^ 56 }
{
    (word >> 10 & 0xfff_ffff_ffff) << 12
}

/// The other bits.
fn others_of(word: u64) -> u64
    ensures { result ≡ others_in word }
{
    word - ((word >> 10 & 0xfff_ffff_ffff) << 10)
}

/// The entries of RISC-V tables.
struct RiscV;

impl Entries for RiscV {
    ghost manual = { manual };

    fn number_of(level: u32) -> u32 {
        level
    }

    fn read_entry(level: u32, word: u64) -> Step {
        let log2 = 12 + 9 * level;
        let address = address_in(word);
        let bits = others_of(word);
        let write = has(W, bits);
        if !has(V, bits) {
            Step::NotPresent
        } else if has_only(V, 0, bits) && 1 <= level {
            Step::Next {
                address,
                read: true,
                write: true,
            }
        } else if has_only(V + R + U + A + D, W, bits) && is_aligned(log2, address) {
            Step::Page {
                address,
                log2,
                read: true,
                write,
            }
        } else if has_only(V + R + U + A + D + N, W, bits)
            && (level == 0 && address % (1 << 16) == 1 << 15)
        {
            Step::Page {
                address: address - (1 << 15),
                log2: 16,
                read: true,
                write,
            }
        } else {
            Step::Reserved
        }
    }
}

/// The walk of an input address (in bytes) of the lower canonical half through RISC-V tables of `levels` levels, over
/// the words of a space: the root, the tags and the entries.
///
/// `None` where an entry on the way isn't valid (V clear), or the address is past the lower half. `Alien` where the
/// root names no frame or another number of levels (then with the number of the highest table), or an entry is of no
/// form of the profile (with the manual's level of its table). Source: RISC-V Privileged Architecture, "Virtual Address
/// Translation Process", and "Svnapot".
pub fn walk_riscv(words: &[u64], levels: u32, address: u64) -> Walked
    requires space { IsSpaceLength 9 (length words.now) }
    requires low { 3 ≤ levels }
    requires high { levels ≤ 5 }
    ensures { result ≡ walk words.now levels address }
{
    walk_by::<RiscV>(words, levels, 11 + 9 * levels, levels - 1, address)
}
