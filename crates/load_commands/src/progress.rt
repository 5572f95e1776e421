// The table as far as it has been read. Spans are in rows of their own, apart from the progress, until End is reached;
// a component counts its spans. What a progress means is in `specs/Progress.antt`.
ghost use Rattle.std.specs.Prelude.{◌≤◌};
ghost use Rattle.machine.specs.Model.{most_parts};

use machine::model::PARTS;
use machine::part::Component;

// Whether Begin was read, whether a span may follow, the default magnitude, and the parts: the first `count` places are
// in use. Free in every progress that is answered: the places after them, and a component's own places for spans, which
// its row means.
#[derive(Clone, Copy)]
pub struct Progress {
    pub begun: bool,
    pub spannable: bool,
    pub magnitude: u8,
    pub count: usize,
    pub parts: [Component; PARTS],
    pub ghost few: { count ≤ most_parts },
}
