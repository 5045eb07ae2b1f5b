//! The text of replies. A line is made from its end, and appended to one vector of bytes.

ghost use Rattle.std.specs.Prelude.{◌≡◌, ◌++◌, ◌*◌, ◌^◌, ◌<◌, All, OnOk, IsTrue, codes};
ghost use Rattle.pt_model.specs.Text.{map_text, prot_text, bytes_of, cut_text, unmap_text, fork_text, lookup_text, words_of, part_word, block_text, block_lines, dump_text, walk_text, census_text, answer_text, reply_text};
ghost use Rattle.pt_stream.specs.Lines.{HasRoom, GrowsBy};
ghost use Rattle.pt_reply.specs.Telling.{is_short, numbered, IsNameable, IsListable, IsTellable, NamesLegalBlock, CutsLegalBlock, output_text, words_text};

use pt_format::{Block, Format, byte_of};
use pt_model::{
    Answer, Census, Dump, ForkAnswer, LookupAnswer, MapAnswer, Prot, Reply, UnmapAnswer,
};
use pt_num::Memory;
use pt_stream::{Line, push_census, push_dec, push_dec_behind};

/// Puts a permission in front of a line.
fn put_prot(line: &mut Line, prot: Prot)
    requires { HasRoom 2 line.old }
    ensures line { line.new ≡ prot_text prot ++ line.old }
    ensures short { GrowsBy 2 line.old line.new }
{
    match prot {
        Prot::Read => line.put(b"r"),
        Prot::ReadWrite => line.put(b"rw"),
    }
}

fn put_map(line: &mut Line, answer: MapAnswer)
    requires { HasRoom 48 line.old }
    ensures line { line.new ≡ map_text answer ++ line.old }
    ensures short { GrowsBy 48 line.old line.new }
{
    match answer {
        MapAnswer::Mapped => line.put(b"map ok"),
        MapAnswer::Misaligned => line.put(b"map misaligned"),
        MapAnswer::Outside => line.put(b"map outside"),
        MapAnswer::Output => line.put(b"map output"),
        MapAnswer::Occupied { address } => {
            line.put_hex(address);
            line.put(b"map occupied ");
        }
        MapAnswer::Frames => line.put(b"map frames"),
    }
}

/// The bytes of a block.
fn bytes_in<F: Format>(block: Block) -> u64
    requires { IsNameable F.layout block }
    ensures { result ≡ bytes_of F.layout block }
{
    1 << (F::GRANULE + block.log2)
}

/// Puts the first address of a block and its bytes in front of a line.
fn put_cut<F: Format>(line: &mut Line, block: Block)
    requires block { IsNameable F.layout block }
    requires room { HasRoom 37 line.old }
    ensures line { line.new ≡ cut_text F.layout block ++ line.old }
    ensures short { GrowsBy 37 line.old line.new }
{
    line.put_hex(bytes_in::<F>(block));
    line.put(b" ");
    line.put_hex(byte_of::<F>(block.first));
}

/// The texts are `unmap ok` and the pages, `unmap misaligned`, `unmap outside`, and `unmap cuts` with the block's
/// first address and its bytes.
fn put_unmap<F: Format>(line: &mut Line, answer: UnmapAnswer)
    requires block { NamesLegalBlock F.layout answer }
    requires room { HasRoom 48 line.old }
    ensures line { line.new ≡ unmap_text F.layout answer ++ line.old }
    ensures short { GrowsBy 48 line.old line.new }
{
    match answer {
        UnmapAnswer::Unmapped { pages } => {
            line.put_dec(pages);
            line.put(b"unmap ok ");
        }
        UnmapAnswer::Misaligned => line.put(b"unmap misaligned"),
        UnmapAnswer::Outside => line.put(b"unmap outside"),
        UnmapAnswer::Cuts { block } => {
            put_cut::<F>(line, block);
            line.put(b"unmap cuts ");
        }
    }
}

fn put_fork<F: Format>(line: &mut Line, answer: ForkAnswer)
    requires block { CutsLegalBlock F.layout answer }
    requires room { HasRoom 48 line.old }
    ensures line { line.new ≡ fork_text F.layout answer ++ line.old }
    ensures short { GrowsBy 48 line.old line.new }
{
    match answer {
        ForkAnswer::Forked => line.put(b"fork ok"),
        ForkAnswer::Misaligned => line.put(b"fork misaligned"),
        ForkAnswer::Outside => line.put(b"fork outside"),
        ForkAnswer::Cuts { block } => {
            put_cut::<F>(line, block);
            line.put(b"fork cuts ");
        }
    }
}

/// Puts an output address, in bytes, and what is permitted in front of a line.
fn put_output(line: &mut Line, address: u64, prot: Prot)
    requires { HasRoom 21 line.old }
    ensures line { line.new ≡ output_text address prot ++ line.old }
    ensures short { GrowsBy 21 line.old line.new }
{
    put_prot(line, prot);
    line.put(b" ");
    line.put_hex(address);
}

fn put_lookup(line: &mut Line, answer: LookupAnswer)
    requires { HasRoom 48 line.old }
    ensures line { line.new ≡ lookup_text answer ++ line.old }
    ensures short { GrowsBy 48 line.old line.new }
{
    match answer {
        LookupAnswer::Found { out: address, prot } => {
            put_output(line, address, prot);
            line.put(b"lookup ");
        }
        LookupAnswer::Nothing => line.put(b"lookup none"),
        LookupAnswer::Outside => line.put(b"lookup outside"),
    }
}

/// A word of a block, by its number.
fn part_word<F: Format>(block: Block, part: u64) -> u64
    requires block { IsListable F.layout block }
    requires part { part < words_of F.layout block }
    ensures { result ≡ part_word F.layout block part }
{
    F::leaf_word(
        block.log2 / F::INDEX,
        block.log2,
        block.out,
        block.prot,
        part,
    )
}

/// The number of a block's words.
fn words_in<F: Format>(block: Block) -> u64
    requires { IsListable F.layout block }
    ensures { result ≡ words_of F.layout block }
{
    1 << (block.log2 % F::INDEX)
}

/// Puts how many words a block has, and the first and the last of them, in front of a line.
fn put_words<F: Format>(line: &mut Line, block: Block)
    requires block { IsListable F.layout block }
    requires room { HasRoom 58 line.old }
    ensures line { line.new ≡ words_text F.layout block ++ line.old }
    ensures short { GrowsBy 58 line.old line.new }
{
    let words = words_in::<F>(block);
    line.put_hex(part_word::<F>(block, words - 1));
    line.put(b" ");
    line.put_hex(part_word::<F>(block, 0));
    line.put(b" ");
    line.put_dec(words);
}

/// The output address of a block, in bytes.
fn output_of<F: Format>(block: Block) -> u64
    requires { IsListable F.layout block }
    ensures { result ≡ block.out * 2 ^ F.layout.granule }
{
    block.out << F::GRANULE
}

/// Puts what a dump tells of a block in front of a line: its address and bytes, its output address and what is permitted,
/// and its words.
fn put_block<F: Format>(line: &mut Line, block: Block)
    requires block { IsListable F.layout block }
    requires room { HasRoom 124 line.old }
    ensures line { line.new ≡ block_text F.layout block ++ line.old }
    ensures short { GrowsBy 124 line.old line.new }
{
    put_words::<F>(line, block);
    line.put(b" ");
    put_output(line, output_of::<F>(block), block.prot);
    line.put(b" ");
    put_cut::<F>(line, block);
    line.put(b"block ");
}

/// Appends the line of a block, behind a line feed.
fn push_block<F: Format>(out: &mut Vec<u8>, block: Block) -> Result<(), Memory>
    requires { IsListable F.layout block }
    ensures { OnOk result (out.new.items ≡ out.old.items ++ (codes "\n" ++ block_text F.layout block)) }
{
    let mut line = Line::new();
    put_block::<F>(&mut line, block);
    line.put(b"\n");
    line.push_to(out)?;
    Ok(())
}

/// Appends the lines of blocks, each behind a line feed.
fn push_blocks<F: Format>(out: &mut Vec<u8>, blocks: &[Block]) -> Result<(), Memory>
    requires { All (IsListable F.layout) blocks.now }
    ensures { OnOk result (out.new.items ≡ out.old.items ++ block_lines F.layout blocks.now) }
{
    for block in blocks {
        push_block::<F>(out, *block)?;
    }
    Ok(())
}

/// Appends how many blocks there are, and the lines of the lowest of them.
fn push_dump<F: Format>(out: &mut Vec<u8>, number: u64, dump: &Dump) -> Result<(), Memory>
    requires { All (IsListable F.layout) dump.now.lowest }
    ensures { OnOk result (out.new.items ≡ out.old.items ++ numbered number (dump_text F.layout dump.now)) }
{
    push_dec(out, number)?;
    push_dec_behind(out, b" dump ", dump.count)?;
    push_blocks::<F>(out, dump.lowest.blocks())?;
    out.extend_from_slice(b"\n")?;
    Ok(())
}

/// Appends the line of a census.
fn push_counts(out: &mut Vec<u8>, number: u64, census: Census) -> Result<(), Memory>
    ensures { OnOk result (out.new.items ≡ out.old.items ++ numbered number (census_text census)) }
{
    push_dec(out, number)?;
    out.extend_from_slice(b" ")?;
    push_census(out, census)?;
    out.extend_from_slice(b"\n")?;
    Ok(())
}

fn put_walk(line: &mut Line, answer: Option<(u64, Prot)>)
    requires { HasRoom 48 line.old }
    ensures line { line.new ≡ walk_text answer ++ line.old }
    ensures short { GrowsBy 48 line.old line.new }
{
    match answer {
        Some((address, prot)) => {
            put_output(line, address, prot);
            line.put(b"walk ");
        }
        None => line.put(b"walk none"),
    }
}

/// Puts an answer of one line in front of a line.
fn put_answer<F: Format>(line: &mut Line, answer: &Answer)
    requires tellable { IsTellable F.layout answer.now }
    requires short { IsTrue (is_short answer.now) }
    requires room { HasRoom 48 line.old }
    ensures line { line.new ≡ answer_text F.layout answer.now ++ line.old }
    ensures short { GrowsBy 48 line.old line.new }
{
    match answer {
        Answer::Map(answer) => put_map(line, *answer),
        Answer::Unmap(answer) => put_unmap::<F>(line, *answer),
        Answer::Lookup(answer) => put_lookup(line, *answer),
        Answer::Release => line.put(b"release ok"),
        Answer::Fork(answer) => put_fork::<F>(line, *answer),
        Answer::Walk(answer) => put_walk(line, *answer),
        Answer::Dump(_) | Answer::Census(_) => unreachable!(),
    }
}

/// Appends the line of a reply that is short.
fn push_short<F: Format>(out: &mut Vec<u8>, number: u64, answer: &Answer) -> Result<(), Memory>
    requires tellable { IsTellable F.layout answer.now }
    requires short { IsTrue (is_short answer.now) }
    ensures { OnOk result (out.new.items ≡ out.old.items ++ numbered number (answer_text F.layout answer.now)) }
{
    let mut line = Line::new();
    line.put(b"\n");
    put_answer::<F>(&mut line, answer);
    line.put(b" ");
    line.put_dec(number);
    line.push_to(out)
}

/// Appends the line of a reply; behind that of a dump the lines of its blocks. Blocks that it names are legal ones of the
/// format, smaller than its space.
pub fn push_reply<F: Format>(out: &mut Vec<u8>, reply: &Reply) -> Result<(), Memory>
    requires { IsTellable F.layout reply.now.answer }
    ensures { OnOk result (out.new.items ≡ out.old.items ++ reply_text F.layout reply.now) }
{
    let number = u64::from(reply.line);
    match &reply.answer {
        Answer::Dump(dump) => push_dump::<F>(out, number, dump),
        Answer::Census(census) => push_counts(out, number, *census),
        answer => push_short::<F>(out, number, answer),
    }
}
