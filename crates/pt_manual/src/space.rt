//! The words of a space whose tables have 512 entries: the root, the tags, and the frames.

ghost use Rattle.std.specs.Prelude.{◌≡◌, ◌^◌, ◌<◌, length, MatchOption, true, false};
ghost use Rattle.pt_model.specs.Words.{IsSpaceLength, entry_in, frame_beginning, frames_of};
ghost use Rattle.pt_manual.specs.NineBitWalk.{names_frame};

/// The number of frames of a space.
pub fn frames_of(words: &[u64]) -> u64
    requires { IsSpaceLength 9 (length words.now) }
    ensures { result ≡ frames_of 9 (length words.now) }
{
    (words.len() as u64 - 1) / 513
}

/// An entry of a frame.
pub fn entry_at(words: &[u64], frame: u64, number: u64) -> u64
    requires space { IsSpaceLength 9 (length words.now) }
    requires a_frame { frame < frames_of 9 (length words.now) }
    requires an_entry { number < 2 ^ 9 }
    ensures { result ≡ entry_in 9 words.now frame number }
{
    words[(1 + frames_of(words) + frame * 512 + number) as usize]
}

/// The frame at an address, where it is one of the space's.
pub fn frame_at(words: &[u64], address: u64) -> Option<u64>
    requires space { IsSpaceLength 9 (length words.now) }
    ensures { MatchOption result (names_frame 12 words.now address ≡ false)
        (λ frame. (names_frame 12 words.now address ≡ true) × (frame ≡ frame_beginning 12 address)
        × (frame < frames_of 9 (length words.now))) }
{
    if address < 1 << 32 || address % 4096 != 0 {
        return None;
    }
    let frame = (address - (1 << 32)) >> 12;
    if frame < frames_of(words) {
        Some(frame)
    } else {
        None
    }
}
