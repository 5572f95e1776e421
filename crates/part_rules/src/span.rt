// Spans, in the places that a component has for them. Its contracts cite the machine's `specs/Sound.antt`.
ghost use Rattle.std.specs.Prelude.{◌≡◌, ◌&&◌, leb, ltb};
ghost use Rattle.machine.specs.Sound.{spans_rise};

use crate::range::LARGEST_POSITIVE;

// Whether a span is above the one before and at most the largest.
fn span_rises(before: u32, span: u32) -> bool
    ensures { result ≡ ltb before span && leb span 1_000_000_000 }
{
    before < span && span <= LARGEST_POSITIVE
}

// Whether spans are each above the one before, the first above 0, and at most the largest.
pub(crate) fn spans_rise(spans: &[u32]) -> bool
    ensures { result ≡ spans_rise 0 spans.now }
{
    let mut before = 0;
    for &span in spans {
        if !span_rises(before, span) {
            return false;
        }
        before = span;
    }
    true
}
