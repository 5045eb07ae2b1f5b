//! Commands that reach out of a span.

ghost use Rattle.std.specs.Prelude.{◌≡◌};
ghost use Rattle.pt_narrow.specs.Standing.{has_outside, outside_answer, reaches_out};

use pt_format::{Format, Span, is_whole, page_of, pages_of};
use pt_model::{Answer, LookupAnswer, MapAnswer, UnmapAnswer, What};

/// Whether `len` bytes from an input address are whole pages of the space that aren't all of the span.
fn reaches_out<F: Format>(span: Span, va: u64, len: u64) -> bool
    ensures { result ≡ reaches_out F.layout span.first span.count va len }
{
    let Some(range) = pages_of::<F>(va, len) else {
        return false
    };
    range.first < span.first
        || range.first - span.first > span.count
        || range.count > span.count - (range.first - span.first)
}

/// Whether an input address has no page of the span.
fn has_outside<F: Format>(span: Span, va: u64) -> bool
    ensures { result ≡ has_outside F.layout span.first span.count va }
{
    let Some(page) = page_of::<F>(va) else {
        return true
    };
    page < span.first || page - span.first >= span.count
}

/// The answer to a command that is refused since it reaches out of the span, and whose other numbers are right.
pub(crate) fn outside_answer<F: Format>(span: Span, what: What) -> Option<Answer>
    ensures { result ≡ outside_answer F.layout span.first span.count what }
{
    match what {
        What::Map { va, pa, len, .. } if is_whole::<F>(pa) && reaches_out::<F>(span, va, len) => {
            Some(Answer::Map(MapAnswer::Outside))
        }
        What::Unmap { va, len } if reaches_out::<F>(span, va, len) => {
            Some(Answer::Unmap(UnmapAnswer::Outside))
        }
        What::Lookup { va } if has_outside::<F>(span, va) => {
            Some(Answer::Lookup(LookupAnswer::Outside))
        }
        _ => None,
    }
}
