//! The image of the words of a space.

ghost use Rattle.std.specs.Prelude.{◌≡◌, ◌+◌, ◌<◌, ◌≤◌, length, IfOk};
ghost use Rattle.pt_model.specs.Layout.{Layout};
ghost use Rattle.pt_model.specs.Words.{word_count};
ghost use Rattle.pt_image.specs.Bytes.{head_bytes, image_bytes};
ghost use Rattle.pt_image.specs.Headers.{ReadsBack};
ghost use Rattle.pt_image.specs.Visits.{HasImage};

use pt_num::Memory;
use std::alloc::Global;

/// The bytes before an image's entries.
fn begin_image(
    alloc: Global,
    number: u8,
    levels: u8,
    frames: u32,
    root: u64,
) -> Result<Vec<u8>, Memory>
    ensures { IfOk result (λ image. image.items ≡ head_bytes number levels frames root) }
{
    let mut image = Vec::new(alloc);
    image.extend_from_slice(b"IOPTIMG1")?;
    image.push(number)?;
    image.push(levels)?;
    image.extend_from_slice(&frames.to_le_bytes())?;
    image.extend_from_slice(&root.to_le_bytes())?;
    Ok(image)
}

/// The image of words of so many frames, with these fields in its header: the format's number and the levels that the space
/// started with.
pub fn image_of(
    alloc: Global,
    number: u32,
    levels: u32,
    frames: u32,
    words: &[u64],
) -> Result<Vec<u8>, Memory>
    requires number { number < 256 }
    requires levels { levels < 256 }
    requires words { 1 + frames ≤ length words.now }
    ensures bytes { IfOk result (λ image. image.items ≡ image_bytes number levels frames words.now) }
    ensures fields { IfOk result (λ image. ReadsBack number levels frames image.items) }
    ensures words { IfOk result (λ image. (f : Layout) → length words.now ≡ word_count f frames → HasImage f frames image.items words.now) }
{
    let mut image = begin_image(alloc, number as u8, levels as u8, frames, words[0])?;
    for word in &words[1 + frames as usize..] {
        image.extend_from_slice(&word.to_le_bytes())?;
    }
    Ok(image)
}
