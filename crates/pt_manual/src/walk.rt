//! The walk of tables with nine index bits at each level.

ghost use Rattle.std.specs.Prelude.{◌≡◌, ◌+◌, ◌*◌, ◌<◌, ◌≤◌, length, true};
ghost use Rattle.pt_model.specs.Words as Words;
ghost use Rattle.pt_model.specs.Words.{IsSpaceLength};
ghost use Rattle.pt_manual.specs.Granting.{allowed};
ghost use Rattle.pt_manual.specs.NineBitWalk as NineBitWalk;
ghost use Rattle.pt_manual.specs.NineBitWalk.{page_as};

use crate::Walked;
use crate::space::{entry_at, frame_at, frames_of};
use crate::step::{Entries, Step};
use pt_format::Prot;

/// A page as the permissions along a walk allow it.
fn page_for(level: u32, out: u64, read: bool, write: bool) -> Walked
    ensures { result ≡ page_as level out (allowed read write) }
{
    match (read, write) {
        (true, true) => Walked::Page {
            out,
            prot: Prot::ReadWrite,
        },
        (true, false) => Walked::Page {
            out,
            prot: Prot::Read,
        },
        (false, true) => Walked::Alien { level },
        (false, false) => Walked::None,
    }
}

/// The walk of an input address from the table in frame `top`, which is `tables` levels high, where nothing is forbidden yet.
pub fn walk_from<E: Entries>(words: &[u64], address: u64, tables: u32, top: u64) -> Walked
    requires space { IsSpaceLength 9 (length words.now) }
    requires high { tables ≤ 6 }
    requires a_frame { top < Words.frames_of 9 (length words.now) }
    ensures { result ≡ NineBitWalk.walk_from E.manual words.now address tables top true true }
{
    let mut frame = top;
    let mut read = true;
    let mut write = true;
    for level in (0..tables).rev() {
        let number = E::number_of(level);
        let place = address >> (12 + 9 * level) & 511;
        match E::read_entry(level, entry_at(words, frame, place)) {
            Step::NotPresent => return Walked::None,
            Step::Reserved => return Walked::Alien { level: number },
            Step::Page {
                address: page,
                log2,
                read: r,
                write: w,
            } => {
                let out = page + address % (1 << log2);
                return page_for(number, out, read & r, write & w);
            }
            Step::Next {
                address: table,
                read: r,
                write: w,
            } => {
                let Some(next) = frame_at(words, table) else {
                    return Walked::Alien { level: number };
                };
                frame = next;
                read = read & r;
                write = write & w;
            }
        }
    }
    let lowest = E::number_of(0);
    Walked::Alien { level: lowest }
}

/// The walk of an input address of `input` bits through tables of `levels` levels. A bad root is alien at `bad_root`.
pub fn walk_by<E: Entries>(
    words: &[u64],
    levels: u32,
    input: u32,
    bad_root: u32,
    address: u64,
) -> Walked
    requires space { IsSpaceLength 9 (length words.now) }
    requires low { 3 ≤ levels }
    requires high { levels ≤ 5 }
    requires bits { input ≤ 12 + 9 * levels }
    ensures { result ≡ NineBitWalk.walk_by E.manual words.now levels input bad_root address }
{
    let frame = words[0] / 8;
    if frame >= frames_of(words) || words[0] % 8 + 1 != levels as u64 {
        return Walked::Alien { level: bad_root };
    }
    if address >> input != 0 {
        return Walked::None;
    }
    walk_from::<E>(words, address, levels, frame)
}
