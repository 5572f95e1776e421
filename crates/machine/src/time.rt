// Superdense time: master ticks and local ticks, the points (t, n), how points compare and where a
// step leads. Master ticks and local ticks are types of their own, so that neither passes for the other.
// The ratio conversion, `Ticks::local`, is the only function that takes one and gives the other. No
// function goes back: where a step asks for master ticks of what a table counts in local ticks, a p or a
// drive's span, the table's plain number is multiplied by the ratio.
//
// Its contracts cite `specs/Time.antt`.
ghost use Rattle.std.specs.Prelude.{◌≡◌};
ghost use Rattle.machine.specs.Time.{compared, in_time, last, local_count, start, stepped};

use std::cmp::Ordering;

// A count of master ticks.
#[derive(Clone, Copy, Debug, PartialEq, Eq, PartialOrd, Ord)]
pub struct Ticks(pub u64);

// A count of a part's local ticks.
#[derive(Clone, Copy, Debug, PartialEq, Eq, PartialOrd, Ord)]
pub struct LocalTicks(pub u64);

// A point of superdense time: the tick t and the microstep n. Points order by t, then n.
#[derive(Clone, Copy, Debug, PartialEq, Eq, PartialOrd, Ord)]
pub struct Point {
    pub t: Ticks,
    pub n: u64,
}

impl Ticks {
    // The ratio conversion: the local ticks that these master ticks make, rounded down. A ratio of 0
    // belongs to no part, and gives 0.
    pub fn local(self, ratio: u64) -> LocalTicks
        ensures { result ≡ local_count self.0 ratio }
    {
        if ratio == 0 {
            return LocalTicks(0);
        }
        LocalTicks(self.0 / ratio)
    }
}

impl Point {
    // The start point.
    pub const START: Point = Point { t: Ticks(0), n: 0 };

    // The last point.
    pub const LAST: Point = Point {
        t: Ticks(1_000_000_000_000_000_000),
        n: 999,
    };

    // The start point, as the definitions name it.
    pub fn start() -> Point
        ensures { result ≡ start }
    {
        Point::START
    }

    // The last point, as the definitions name it.
    pub fn last() -> Point
        ensures { result ≡ last }
    {
        Point::LAST
    }

    // How this point compares with `other`.
    #[tactic(auto, unfolding(crate::specs::Time::compared))]
    pub fn compare(self, other: Point) -> Ordering
        ensures { result ≡ compared self other }
    {
        self.cmp(&other)
    }

    // Whether it is a point of the time.
    #[tactic(auto, unfolding(crate::specs::Time::in_time))]
    pub fn is_in_time(self) -> bool
        ensures { result ≡ in_time self }
    {
        self.t <= Point::LAST.t && self.n <= Point::LAST.n
    }

    // The point that a step of `h` leads to, where that is a point of the time: a step of 0 leads to none from
    // the last microstep of a tick on, and another step to none that is later than the last point.
    #[tactic(auto, unfolding(crate::specs::Time::stepped, crate::specs::Time::in_time, crate::specs::Time::led_to))]
    pub fn step(self, h: Ticks) -> Option<Point>
        ensures { result ≡ stepped self h.0 }
    {
        let to = if h.0 == 0 {
            Point {
                t: self.t,
                n: self.n.checked_add(1)?,
            }
        } else {
            Point {
                t: Ticks(self.t.0.checked_add(h.0)?),
                n: 0,
            }
        };
        if to.is_in_time() { Some(to) } else { None }
    }
}
