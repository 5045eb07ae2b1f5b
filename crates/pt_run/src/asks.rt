//! What is asked of a closed space.

ghost use Rattle.std.specs.Prelude.{◌≡◌, ◌++◌, OnOk};
ghost use Rattle.pt_model.specs.Run.{ask_answer, ask_replies, walk_answer};
ghost use Rattle.pt_view.specs.Views.{book_of};
ghost use Rattle.pt_closed.specs.Closed.{IsClosed};
ghost use Rattle.pt_names.specs.Names.{layout_of};
ghost use Rattle.pt_reply.specs.Built.{machine};

use pt_closed::census_of;
use pt_format::Format;
use pt_manual::Walked;
use pt_model::{Answer, Ask, AskWhat, Name, Prot, Reply};
use pt_names::walk;
use pt_num::Memory;

/// What the manual's walk of the words of a closed space finds at an input address: the output address of that byte and
/// what is permitted. Addresses are in bytes.
fn walked<F: Format>(name: Name, words: &[u64], frames: u32, va: u64) -> Option<(u64, Prot)>
    requires name { layout_of name ≡ F.layout }
    requires closed { IsClosed F.layout frames words.now }
    ensures { (closed : IsClosed F.layout frames words.now) → result ≡ walk_answer F.layout (book_of closed.view closed.blocks) va }
{
    match walk(name, words, va) {
        Walked::Page { out, prot } => Some((out, prot)),
        Walked::None => None,
        Walked::Alien { .. } => unreachable!(),
    }
}

fn answer_ask<F: Format>(name: Name, words: &[u64], frames: u32, what: AskWhat) -> Answer
    requires name { layout_of name ≡ F.layout }
    requires closed { IsClosed F.layout frames words.now }
    ensures { (closed : IsClosed F.layout frames words.now) →
        result ≡ ask_answer (machine F.layout closed.levels frames) (book_of closed.view closed.blocks) what }
{
    match what {
        AskWhat::Walk { va } => Answer::Walk(walked::<F>(name, words, frames, va)),
        AskWhat::Census => Answer::Census(census_of::<F>(words, frames)),
    }
}

/// Answers what is asked of a closed space of so many frames, in turn, and appends the replies.
pub(crate) fn answer_asks<F: Format>(
    name: Name,
    words: &[u64],
    frames: u32,
    asks: &[Ask],
    replies: &mut Vec<Reply>,
) -> Result<(), Memory>
    requires name { layout_of name ≡ F.layout }
    requires closed { IsClosed F.layout frames words.now }
    ensures { (closed : IsClosed F.layout frames words.now) →
        OnOk result (replies.new.items ≡ replies.old.items
        ++ ask_replies (machine F.layout closed.levels frames) (book_of closed.view closed.blocks) asks.now) }
{
    for ask in asks {
        replies.push(Reply {
            line: ask.line,
            answer: answer_ask::<F>(name, words, frames, ask.what),
        })?;
    }
    Ok(())
}
