//! The words of one owner: how the root's word, a tag, and entries, one or a run of them, are read and written.

ghost use Rattle.std.specs.Prelude.{◌≡◌, ℕ, ◌+◌, ◌*◌, ◌/◌, ◌%◌, ◌^◌, false, ◌<◌, ◌≤◌, IsTrue, length, Option, Some, None, slice_set};
ghost use Rattle.pt_model.specs.Words as words_are;
ghost use Rattle.pt_model.specs.Words.{frame_limit, tag, entry_of};
ghost use Rattle.pt_plain.specs.Owner as owner;

use pt_format::Format;
use pt_words::{entry_place, root_word};

/// The frame that the root's word names.
pub(crate) fn root_frame(root: u64) -> u32
    requires { root < 2 ^ 32 }
    ensures { result ≡ root / 8 }
{
    root as u32 / 8
}

/// The level that the root's word names. In a format that doesn't grow it is known without it.
pub(crate) fn root_level<F: Format>(root: u64) -> u32
    requires { F.layout.grows ≡ false → root % 8 + 1 ≡ F.layout.levels }
    ensures { result ≡ root % 8 }
{
    if F::GROWS {
        (root % 8) as u32
    } else {
        F::LEVELS - 1
    }
}

/// Makes a frame's table the root's, at a level.
pub(crate) fn set_root(words: &mut [u64], frame: u32, level: u32)
    requires some { 0 < length words.old }
    ensures { words.new ≡ slice_set words.old 0 (words_are.root_word frame level) }
{
    words[0] = root_word(frame, level);
}

/// The tag of a frame.
pub(crate) fn tag_of(words: &[u64], frame: u32) -> u64
    requires { 1 + frame < length words.now }
    ensures { result ≡ tag words.now frame }
{
    words[1 + frame as usize]
}

/// An entry of a frame.
pub(crate) fn entry<F: Format>(words: &[u64], frames: u32, frame: u32, number: u32) -> u64
    requires few { frames ≤ frame_limit F.layout }
    requires a_frame { frame < frames }
    requires an_entry { number < 2 ^ F.layout.index }
    requires long { length words.now ≡ words_are.word_count F.layout frames }
    ensures { result ≡ entry_of F.layout frames words.now frame number }
{
    words[entry_place::<F>(frames, frame, number)]
}

pub(crate) fn set_entry<F: Format>(
    words: &mut [u64],
    frames: u32,
    frame: u32,
    number: u32,
    word: u64,
)
    requires few { frames ≤ frame_limit F.layout }
    requires a_frame { frame < frames }
    requires an_entry { number < 2 ^ F.layout.index }
    requires long { length words.old ≡ words_are.word_count F.layout frames }
    ensures { words.new ≡ slice_set words.old (words_are.entry_place F.layout frames frame number) word }
{
    words[entry_place::<F>(frames, frame, number)] = word;
}

/// Sets `count` entries of a frame from number `first` on: the first to `word`, each next one to `step` more.
pub(crate) fn set_run<F: Format>(
    words: &mut [u64],
    frames: u32,
    frame: u32,
    first: u32,
    count: u32,
    word: u64,
    step: u64,
)
    requires few { frames ≤ frame_limit F.layout }
    requires a_frame { frame < frames }
    requires some { 0 < count }
    requires inside { first + count ≤ 2 ^ F.layout.index }
    requires long { length words.old ≡ words_are.word_count F.layout frames }
    requires within { (i : ℕ) → i < count → word + i * step < 2 ^ 64 }
    ensures { words.new ≡ owner.set_run words.old (words_are.entry_place F.layout frames frame first) count word step }
{
    let place = entry_place::<F>(frames, frame, first);
    let mut next = word;
    for i in 0..count {
        words[place + i as usize] = next;
        next = next.wrapping_add(step);
    }
}

/// Whether `count` entries of a frame from number `first` on are all zero.
pub(crate) fn is_zero_run<F: Format>(
    words: &[u64],
    frames: u32,
    frame: u32,
    first: u32,
    count: u32,
) -> bool
    requires few { frames ≤ frame_limit F.layout }
    requires a_frame { frame < frames }
    requires some { 0 < count }
    requires inside { first + count ≤ 2 ^ F.layout.index }
    requires long { length words.now ≡ words_are.word_count F.layout frames }
    ensures { IsTrue result → owner.IsZeroRun words.now (words_are.entry_place F.layout frames frame first) count }
{
    let place = entry_place::<F>(frames, frame, first);
    let mut all = 0;
    for looked in 0..count {
        all |= words[place + looked as usize];
    }
    all == 0
}

/// Sets `count` entries of a frame from number `first` on to zero. Answers how many weren't.
pub(crate) fn zero_run<F: Format>(
    words: &mut [u64],
    frames: u32,
    frame: u32,
    first: u32,
    count: u32,
) -> u32
    requires few { frames ≤ frame_limit F.layout }
    requires a_frame { frame < frames }
    requires some { 0 < count }
    requires inside { first + count ≤ 2 ^ F.layout.index }
    requires long { length words.old ≡ words_are.word_count F.layout frames }
    ensures set { words.new ≡ owner.set_run words.old (words_are.entry_place F.layout frames frame first) count 0 0 }
    ensures number { result ≡ owner.nonzero_in words.old (words_are.entry_place F.layout frames frame first) count }
{
    let place = entry_place::<F>(frames, frame, first);
    let mut empty: u64 = 0;
    for done in 0..count {
        let at = place + done as usize;
        empty += u64::from(words[at] == 0);
        words[at] = 0;
    }
    count - empty as u32
}

/// The number below which no frame is free, where it was so below `number`, and this frame is found not free or taken.
pub(crate) fn taken_upto(number: u32, frame: u32) -> u32
    requires { frame < 2 ^ 31 }
    ensures { result ≡ owner.taken_upto number frame }
{
    if frame == number { frame + 1 } else { number }
}
