//! The words of a space whose tables are of one granule, of 4, 16 or 64 KiB: the root, the tags, and the frames.

ghost use Rattle.std.specs.Prelude.{◌≡◌, ◌-◌, ◌^◌, ◌<◌, length, MatchOption, true, false};
ghost use Rattle.pt_model.specs.Words.{IsSpaceLength, entry_in, frame_beginning, frames_of};
ghost use Rattle.pt_manual.specs.NineBitWalk.{names_frame};
ghost use Rattle.pt_manual.specs.VmsaWalk.{IsGranule, index_bits};

/// The number of frames of a space.
pub fn frames_of(granule: u32, words: &[u64]) -> u64
    requires a_granule { IsGranule granule }
    requires space { IsSpaceLength (index_bits granule) (length words.now) }
    ensures { result ≡ frames_of (index_bits granule) (length words.now) }
{
    (words.len() as u64 - 1) / ((1 << (granule - 3)) + 1)
}

/// An entry of a frame.
pub fn entry_at(granule: u32, words: &[u64], frame: u64, number: u64) -> u64
    requires a_granule { IsGranule granule }
    requires space { IsSpaceLength (index_bits granule) (length words.now) }
    requires a_frame { frame < frames_of (index_bits granule) (length words.now) }
    requires an_entry { number < 2 ^ index_bits granule }
    ensures { result ≡ entry_in (index_bits granule) words.now frame number }
{
    words[(1 + frames_of(granule, words) + (frame << (granule - 3)) + number) as usize]
}

/// The frame at an address, where it is one of the space's.
pub fn frame_at(granule: u32, words: &[u64], address: u64) -> Option<u64>
    requires a_granule { IsGranule granule }
    requires space { IsSpaceLength (index_bits granule) (length words.now) }
    ensures { MatchOption result (names_frame granule words.now address ≡ false)
        (λ frame. (names_frame granule words.now address ≡ true) × (frame ≡ frame_beginning granule address)
        × (frame < frames_of (index_bits granule) (length words.now))) }
{
    if address < 1 << 32 || (address - (1 << 32)) % (1 << granule) != 0 {
        return None;
    }
    let frame = (address - (1 << 32)) >> granule;
    if frame < frames_of(granule, words) {
        Some(frame)
    } else {
        None
    }
}
