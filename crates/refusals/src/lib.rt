// Refusals: each by its cause, with the numbers of the binding's enum; a refusal where there is cause for it, so that
// the order of tests is the order of operands; and what a call that writes into a lent buffer returns when it does not.
#![tactic(auto)]

ghost use Rattle.std.specs.Prelude.{◌≡◌, cond};
ghost use Rattle.refusals.specs.declared.Unwritten.TheVariants.{Refused};
ghost use Rattle.refusals.specs.Numbers.{refusal_number, refused_number};
ghost use Rattle.refusals.specs.Unwritten.{unwritten_number, unwritten_length};

// A refusal, by its cause. Each has its number.
#[derive(Clone, Copy, Debug, PartialEq, Eq)]
pub enum Refusal {
    // The stream is cut.
    Cut = 1,
    // The command byte is unknown.
    UnknownCommand = 2,
    // The command is out of place.
    OutOfPlace = 3,
    // An operand is out of its range.
    OutOfRange = 5,
    // There are too many parts or spans.
    TooMany = 6,
    // A wire names what is not there.
    NotThere = 7,
    // The port is wired already.
    AlreadyWired = 8,
    // The table has no parts.
    NoParts = 9,
    // Some P is too long.
    PeriodTooLong = 10,
    // There is a loop.
    Loop = 11,
    // A span does not rise.
    SpanNotRising = 12,
    // The wanted step is out of its range.
    WantedOutOfRange = 20,
    // Some part is due at the last microstep.
    DueAtLastMicrostep = 21,
    // No step is accepted by all.
    NoStepAccepted = 22,
    // The step may lead past the last tick.
    PastLastTick = 23,
    // The model is not sound, or the words spell none.
    NotSound = 24,
    // A lent buffer is too short.
    TooShort = 25,
    // The line cannot be printed.
    NotPrintable = 26,
}

impl Refusal {
    // Its number.
    pub fn number(self) -> u64
        ensures { result ≡ refusal_number self }
    {
        self as u64
    }

    // This refusal where there is cause for it.
    pub fn when(self, cause: bool) -> Result<(), Refusal>
        ensures { result ≡ cond cause (Err self) (Ok tt) }
    {
        if cause { Err(self) } else { Ok(()) }
    }

    // This refusal at a position of a stream.
    pub fn at(self, position: usize) -> RefusedAt
        ensures { result ≡ record { refusal = self; position = position } }
    {
        RefusedAt {
            refusal: self,
            position,
        }
    }
}

// The number of a test: 0 where nothing is refused.
pub fn number_in(tested: Result<(), Refusal>) -> u64
    ensures { result ≡ refused_number tested }
{
    match tested {
        Ok(()) => 0,
        Err(refusal) => refusal.number(),
    }
}

// A refusal of a stream, and the position there.
#[derive(Clone, Copy, Debug, PartialEq, Eq)]
pub struct RefusedAt {
    pub refusal: Refusal,
    pub position: usize,
}

// Why a call that writes into a lent buffer wrote nothing: a refusal, or the buffer is too short, which needs so many
// bytes.
#[derive(Clone, Copy, Debug, PartialEq, Eq)]
pub enum Unwritten {
    Refused(Refusal),
    Short(usize),
}

impl Unwritten {
    // Its number.
    pub fn number(self) -> u64
        ensures { result ≡ unwritten_number self }
    {
        match self {
            Unwritten::Refused(refusal) => refusal.number(),
            Unwritten::Short(_) => Refusal::TooShort.number(),
        }
    }

    // How many bytes the buffer needs where it is too short, else 0.
    pub fn needed(self) -> usize
        ensures { result ≡ unwritten_length self }
    {
        match self {
            Unwritten::Refused(_) => 0,
            Unwritten::Short(needed) => needed,
        }
    }
}

impl From<Refusal> for Unwritten {
    ghost from_gives = { λ r u. u ≡ Refused r };

    fn from(refusal: Refusal) -> Unwritten {
        Unwritten::Refused(refusal)
    }
}
