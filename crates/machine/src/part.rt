// A part: its component, which the table fixed, its ratio, and its state, which a step changes.
// `specs/Kind.antt` gives document 01's number, or values, for each case of each enum here.
ghost use Rattle.std.specs.Prelude.{◌≡◌};
ghost use Rattle.machine.specs.Kind.{KindFound, kind_number};

use crate::signal::Signal;
use crate::time::LocalTicks;

// How many places for spans a drive has.
pub const SPANS: usize = 8;

// The kinds of part, in the order of their numbers.
#[derive(Clone, Copy, Debug, PartialEq, Eq)]
pub enum Kind {
    Constant,
    Gain,
    Adder,
    Square,
    Pulse,
    Delay,
    Integrator,
    ResetIntegrator,
    Detector,
    Hold,
    Sampler,
    Drive,
    Clapper,
}

// A number that no kind has.
#[derive(Clone, Copy, Debug, PartialEq, Eq)]
pub struct UnknownKind(pub u8);

impl From<Kind> for u8 {
    ghost from_gives = { λ k n. n ≡ kind_number k };

    fn from(kind: Kind) -> u8 {
        kind as u8
    }
}

impl TryFrom<u8> for Kind {
    type Error = UnknownKind;

    ghost try_from_gives = { KindFound };

    #[tactic(auto, unfolding(crate::specs::Kind::kind_known, crate::specs::Kind::kind_of))]
    fn try_from(number: u8) -> Result<Kind, UnknownKind> {
        match number {
            0 => Ok(Kind::Constant),
            1 => Ok(Kind::Gain),
            2 => Ok(Kind::Adder),
            3 => Ok(Kind::Square),
            4 => Ok(Kind::Pulse),
            5 => Ok(Kind::Delay),
            6 => Ok(Kind::Integrator),
            7 => Ok(Kind::ResetIntegrator),
            8 => Ok(Kind::Detector),
            9 => Ok(Kind::Hold),
            10 => Ok(Kind::Sampler),
            11 => Ok(Kind::Drive),
            12 => Ok(Kind::Clapper),
            _ => Err(UnknownKind(number)),
        }
    }
}

// What a port is wired to: nothing, or the output of the part with this number. It is no Option: the two cases are what
// document 01 calls a port and a wire, and its definitions go by them (`wired` and `with_wire`, `specs/Load.antt`).
#[derive(Clone, Copy, Debug, PartialEq, Eq)]
pub enum Source {
    Unwired,
    From(u16),
}

// The side of zero on which a zero-crossing detector last saw its input; zero itself is on neither.
// Document 01 has negative and not negative, and request 1 made the second positive.
#[derive(Clone, Copy, Debug, PartialEq, Eq)]
pub enum Side {
    Unset,
    Negative,
    Positive,
}

// A zero-crossing detector's pending mark: none, 1 or -1.
#[derive(Clone, Copy, Debug, PartialEq, Eq)]
pub enum Mark {
    Clear,
    Rising,
    Falling,
}

// What the table fixes of a part. Of `spans` the first `span_count` places are in use, eight places as document 01 has
// them, and no heap; `preference` is 255 for none; `p` is the operand of that name.
#[derive(Clone, Copy)]
pub struct Component {
    pub kind: Kind,
    pub preference: u8,
    pub a: i64,
    pub b: i64,
    pub p: u32,
    pub span_count: usize,
    pub spans: [u32; SPANS],
    pub port0: Source,
    pub port1: Source,
}

// What a step changes of a part: its local count, held number, speed, held signal and stored output,
// and a detector's side and mark. The speed is request 2's second held number, 0 but for a clapper.
#[derive(Clone, Copy)]
pub struct State {
    pub local: LocalTicks,
    pub held: i64,
    pub speed: i64,
    pub signal: Signal,
    pub output: Signal,
    pub side: Side,
    pub mark: Mark,
}

// A part of a model.
#[derive(Clone, Copy)]
pub struct Part {
    pub component: Component,
    pub ratio: u64,
    pub state: State,
}
