// The order of parts. Those still unplaced are marks in one 32-bit word: trailing zeros find the lowest
// marked part, and the count of ones falls with each part placed.
//
// The contracts cite this crate's `specs/Direct.antt` and `specs/OrderByMarks.antt`, where the order is
// `part_order` of the machine's `specs/Table.antt`.
#![tactic(auto)]

ghost use Rattle.std.specs.Prelude.{◌≡◌, map, ◌-◌, ◌^◌, ◌≤◌};
ghost use Rattle.machine.specs.Table.{source_placed};
ghost use Rattle.machine.specs.Model.{most_parts};
ghost use Rattle.laws.specs.WordMarks.{marks_of};
ghost use Rattle.order_place.specs.Direct.{direct_source, direct_of, both_placed, lowest_among, found_as};
ghost use Rattle.order_place.specs.OrderByMarks.{InOrder};

use machine::model::PARTS;
use machine::part::{Component, Source};
use part_rules::port::{direct0_of, direct1_of};
use std::array;

// The parts placed, in order. Of `order` the first `count` places are in use, and 0 is in the others: a model holds
// its order so, with no heap.
#[derive(Clone, Copy)]
pub struct Placed {
    pub order: [u16; PARTS],
    pub count: usize,
}

// The direct sources of a part: what each port is wired to if it is direct, else nothing.
#[derive(Clone, Copy)]
pub struct Direct {
    pub port0: Source,
    pub port1: Source,
}

// What a port is wired to if it is direct, else nothing.
fn if_direct(direct: bool, source: Source) -> Source
    ensures { result ≡ direct_source direct source }
{
    if direct { source } else { Source::Unwired }
}

// The direct sources of a part.
#[tactic(auto, unfolding(crate::specs::Direct::direct_of))]
pub fn direct_sources(part: Component) -> Direct
    ensures { result ≡ direct_of part }
{
    Direct {
        port0: if_direct(direct0_of(part.kind), part.port0),
        port1: if_direct(direct1_of(part.kind), part.port1),
    }
}

// The direct sources of all parts. An array's map would copy the components once more to the stack.
fn all_direct(parts: [Component; PARTS]) -> [Direct; PARTS]
    ensures { result ≡ map direct_of parts }
{
    array::from_fn(|i| direct_sources(parts[i]))
}

// Whether the source is placed: its mark is clear.
fn source_placed(marks: u32, source: Source) -> bool
    ensures { result ≡ source_placed (marks_of 32 marks) source }
{
    match source {
        Source::Unwired => true,
        Source::From(k) => k >= 32 || (marks >> k) % 2 == 0,
    }
}

// Whether both direct sources are placed.
#[tactic(auto, unfolding(crate::specs::Direct::both_placed))]
fn ready(marks: u32, direct: Direct) -> bool
    ensures { result ≡ both_placed (marks_of 32 marks) direct }
{
    source_placed(marks, direct.port0) && source_placed(marks, direct.port1)
}

// The lowest marked part whose direct sources are placed. No loop over a range: document 01 has the marks in a word,
// of which trailing zeros give the next.
fn lowest(direct: &[Direct; PARTS], marks: u32) -> Option<u32>
    ensures { result ≡ found_as (lowest_among (marks_of 32 marks) (marks_of 32 marks) 0 direct.now) }
{
    let mut candidates = marks;
    while candidates != 0 {
        let k = candidates.trailing_zeros();
        if ready(marks, direct[k as usize]) {
            return Some(k);
        }
        candidates -= 1 << k;
    }
    None
}

// The marks of so many parts, all of them unplaced.
fn all_marked(count: usize) -> u32
    requires { count ≤ most_parts }
    ensures { result ≡ 2 ^ count - 1 }
{
    ((1u64 << count) - 1) as u32
}

// The first `count` parts in the order in which they are placed: the lowest marked part whose direct
// sources are placed goes next, until there is none. The place is the count of marks that are gone, as document 01 has
// it, and so no counter of its own.
pub fn place(parts: [Component; PARTS], count: usize) -> Placed
    requires { count ≤ most_parts }
    ensures { InOrder parts count result }
{
    let direct = all_direct(parts);
    let mut order = [0; PARTS];
    let mut marks = all_marked(count);
    loop {
        let done = count - marks.count_ones() as usize;
        let Some(k) = lowest(&direct, marks) else {
            return Placed { order, count: done };
        };
        order[done] = k as u16;
        marks -= 1 << k;
    }
}
