//! The check of an image whose header is good.

ghost use Rattle.std.specs.Prelude.{◌≡◌, ℕ, ◌/◌, ◌%◌, ◌+◌, ◌^◌, ◌<◌, ◌≤◌, length, slice_index, IfErr, IfNone, IfOk, IfSome};
ghost use Rattle.pt_model.specs.Words.{root_word};
ghost use Rattle.pt_image.specs.Books.{SaysImageBook};
ghost use Rattle.pt_image.specs.Bytes.{entry_at, root_in};
ghost use Rattle.pt_image.specs.Checks.{AreWords, IsFirstUsed, IsHeaderOf, IsRootTable, NamesFirstUsed};
ghost use Rattle.pt_image.specs.Drafts.{IsBegun};
ghost use Rattle.pt_image.specs.Faults.{HasRoot, IsGoodImage, IsRefusal};
ghost use Rattle.pt_image.specs.Visits.{HasImage, HasNoStray};

use crate::bytes::{ROOT, read_entry, read_u64};
use crate::fault::{CheckRefused, ImageFault};
use crate::header::Header;
use crate::table::Table;
use crate::walk::visit;
use pt_format::Format;
use pt_num::Memory;
use pt_space::Sound;
use pt_words::{placed_word, word_count};
use std::alloc::Global;

/// The first entry of a frame that isn't zero.
fn first_used<F: Format>(image: &[u8], header: &Header, frame: u32) -> Option<u32>
    requires header { IsHeaderOf F.layout header.now image.now }
    requires a_frame { frame < header.now.frames }
    ensures none { IfNone result ((i : ℕ) → i < 2 ^ F.layout.index → entry_at F.layout image.now frame i ≡ 0) }
    ensures first { IfSome result (IsFirstUsed F.layout image.now frame) }
{
    for index in 0..1 << F::INDEX {
        if read_entry::<F>(image, header.frames, frame, index) != 0 {
            return Some(index);
        }
    }
    None
}

/// The first entry that isn't zero of a frame that no table is in.
fn first_stray<F: Format>(image: &[u8], header: &Header, words: &[u64]) -> Option<ImageFault>
    requires header { IsHeaderOf F.layout header.now image.now }
    requires words { AreWords F.layout header.now words.now }
    ensures none { IfNone result (HasNoStray F.layout header.now.frames image.now words.now) }
    ensures first { IfSome result (NamesFirstUsed F.layout header.now.frames image.now words.now) }
{
    for frame in 0..header.frames {
        if words[1 + frame as usize] == 0
            && let Some(index) = first_used::<F>(image, header, frame)
        {
            return Some(ImageFault::Stray { frame, index });
        }
    }
    None
}

/// Words with the root's table alone: all entries are zero.
fn begin<F: Format>(
    alloc: Global,
    header: &Header,
    image: &[u8],
    table: Table,
) -> Result<Vec<u64>, Memory>
    requires header { IsHeaderOf F.layout header.now image.now }
    requires root { IsRootTable F.layout header.now image.now table }
    ensures { IfOk result (λ w. IsBegun F.layout header.now.frames (table.level + 1) table.frame w.items) }
{
    let mut words = Vec::new(alloc);
    words.resize(word_count::<F>(header.frames), 0)?;
    words[0] = read_u64(image, ROOT);
    words[1 + table.frame as usize] = placed_word(table.level, 0);
    Ok(words)
}

/// The root's table, where the root names a frame of the image and a level that a root can have.
fn root_table<F: Format>(header: &Header, image: &[u8]) -> Option<Table>
    requires { IsHeaderOf F.layout header.now image.now }
    ensures good { IfSome result (λ t. IsRootTable F.layout header.now image.now t) }
    ensures bad { IfNone result (¬ HasRoot F.layout header.now.frames header.now.levels image.now) }
{
    let root = read_u64(image, ROOT);
    let level = (root % 8) as u32;
    if root / 8 < u64::from(header.frames) && level + 1 >= header.levels && level < F::LEVELS {
        Some(Table {
            frame: (root / 8) as u32,
            level,
            base: 0,
        })
    } else {
        None
    }
}

/// The words of an image of this format, with the tags of its tables, where it is found good: the root and the entries are the
/// image's, the words are sound, so that a space may be resumed from them, and the book that they say is the image's. Otherwise
/// the first thing that is wrong with it: the root, else the first bad entry in the order of visits, else the lowest entry that
/// isn't zero of the lowest frame to which nothing points; or `Memory` where there is none for the words. The header is the
/// image's own, and the image has exactly the bytes that it says.
pub fn check<F: Format>(
    alloc: Global,
    header: &Header,
    image: &[u8],
) -> Result<Sound<F>, CheckRefused>
    requires { IsHeaderOf F.layout header.now image.now }
    ensures sound { IfOk result (λ s. (s.frames ≡ header.now.frames) × (s.levels ≡ header.now.levels)) }
    ensures image { IfOk result (λ s. HasImage F.layout header.now.frames image.now s.words) }
    ensures good { IfOk result (λ _. IsGoodImage F.layout header.now.frames header.now.levels image.now) }
    ensures book { IfOk result (λ s. SaysImageBook F.layout header.now.frames header.now.levels image.now s.words) }
    ensures refused { IfErr result (IsRefusal F.layout header.now.frames header.now.levels image.now) }
{
    let Some(table) = root_table::<F>(header, image) else {
        return Err(CheckRefused::Fault {
            fault: ImageFault::Root,
        });
    };
    let mut words = begin::<F>(alloc, header, image, table)?;
    if let Err(fault) = visit::<F>(image, header, &mut words, table) {
        return Err(CheckRefused::Fault { fault });
    }
    if let Some(fault) = first_stray::<F>(image, header, &words) {
        return Err(CheckRefused::Fault { fault });
    }
    Ok(Sound::of(words, header.frames, header.levels))
}
