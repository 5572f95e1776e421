// The test of a part order: whether an order that is given is the part order, without ordering anew.
//
// The places of the order are passed once, from the first on. Of each part that has been passed,
// `after` has how many parts are placed once it is. The larger of the numbers of a part's direct
// sources is then its ready time: the first place at which the part might have been. The order is
// the part order exactly where each part is there once, is at its ready time or after, and no
// higher part is from its ready time up to its place.
//
// For the last of these each place keeps a link to an earlier place: what is from there on is no
// higher than the part at the place. The walk back from a place goes by the links and ends at the
// ready time, or where a higher part is; where it ends is the new link.
//
// The test takes a number of turns that is linear in the number of parts. The places that a walk can
// meet are those that the links lead to from the last place passed, one after the other. A walk that
// goes on at a place puts the new link over it, so that no later walk meets it: all walks together
// go on at most once at each place, and each walk ends once.
//
// The contract of the test cites `part_order` of the machine's `specs/Table.antt`, those of its parts
// this crate's `specs/Times.antt` and `specs/Links.antt`.
#![tactic(auto)]

ghost use Rattle.std.specs.Prelude.{◌≡◌, ◌&&◌, List, map, take, ◌≤◌, ◌<◌};
ghost use Rattle.machine.specs.declared.part.Component.{Component};
ghost use Rattle.machine.specs.Lists.{same};
ghost use Rattle.machine.specs.Table.{ordered, part_order};
ghost use Rattle.machine.specs.Model.{most_parts};
ghost use Rattle.order_place.specs.Direct.{direct_of};
ghost use Rattle.order_test.specs.Times.{source_after, ready_after};
ghost use Rattle.order_test.specs.Links.{Links, WalkedBack};

use machine::model::PARTS;
use machine::part::Source;
use order_place::Direct;

// The number of a part that has no place yet. It is no Option: above every place, it is told by the comparisons that
// the other numbers need.
const UNPLACED: usize = PARTS + 1;

// How many parts are placed once the source is. A source that is none of the parts keeps no part waiting.
#[tactic(auto, unfolding(crate::specs::Times::source_after))]
fn source_after(after: &[usize; PARTS], count: usize, source: Source) -> usize
    requires { count ≤ most_parts }
    ensures { result ≡ source_after after.now count source }
{
    match source {
        Source::From(k) if (k as usize) < count => after[k as usize],
        _ => 0,
    }
}

// The ready time of a part: how many parts are placed once its direct sources are.
#[tactic(auto, unfolding(crate::specs::Times::ready_after))]
fn ready_after(after: &[usize; PARTS], count: usize, direct: Direct) -> usize
    requires { count ≤ most_parts }
    ensures { result ≡ ready_after after.now count direct }
{
    source_after(after, count, direct.port0).max(source_after(after, count, direct.port1))
}

// The walk back from place i by the links: it ends at the ready time or before it, or after a higher part. It leaps
// over places, and so is no loop over a range.
fn walk_back(order: &[u16; PARTS], links: &[usize; PARTS], i: usize, ready: usize) -> usize
    requires { (i < most_parts) × Links order.now links.now i }
    ensures { WalkedBack order.now i ready result }
{
    let mut place = i;
    while ready < place && order[place - 1] <= order[i] {
        place = links[place - 1];
    }
    place
}

// Whether the order of the first `count` parts is their part order, and has all of them: `direct` are
// the direct sources of the parts, whatever else their components are.
pub fn follows(order: [u16; PARTS], direct: [Direct; PARTS], count: usize) -> bool
    requires { count ≤ most_parts }
    ensures { (cs : List Component) → map direct_of cs ≡ take count direct →
        result ≡ ordered cs && same (take count order) (part_order cs) }
{
    let mut after = [UNPLACED; PARTS];
    let mut links = [0; PARTS];
    for i in 0..count {
        let k = order[i] as usize;
        if count <= k || after[k] <= i {
            return false;
        }
        let ready = ready_after(&after, count, direct[k]);
        if i < ready {
            return false;
        }
        let link = walk_back(&order, &links, i, ready);
        if ready < link {
            return false;
        }
        after[k] = i + 1;
        links[i] = link;
    }
    true
}
