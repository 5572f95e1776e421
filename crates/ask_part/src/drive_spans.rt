// A drive's spans: whether a count of local ticks is 0 or one of them, and the largest below a count.
//
// Its contracts cite `machine`'s `specs/Accept.antt`.
ghost use Rattle.std.specs.Prelude.{◌≡◌};
ghost use Rattle.machine.specs.Accept.{allowed, largest_below};

use machine::time::LocalTicks;

// Whether `d` is 0 or a span.
#[tactic(auto, unfolding(machine::specs::Accept::allowed, machine::specs::Lists::member))]
pub(crate) fn allowed(spans: &[u32], d: LocalTicks) -> bool
    ensures { result ≡ allowed spans.now d.0 }
{
    d.0 == 0 || spans.iter().any(|&span| d.0 == u64::from(span))
}

// The largest of 0 and the spans that lies below `d`, as the table's plain number.
#[tactic(auto, unfolding(machine::specs::Accept::largest_below))]
pub(crate) fn largest_below(spans: &[u32], d: LocalTicks) -> u64
    ensures { result ≡ largest_below spans.now d.0 }
{
    spans
        .iter()
        .map(|&span| u64::from(span))
        .filter(|&span| span < d.0)
        .fold(0, u64::max)
}
