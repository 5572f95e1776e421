// The two formats of a line: a plain line, or a sheet line with three chosen parts. The contracts cite
// `specs/Lines.antt`.
ghost use Rattle.std.specs.Prelude.{◌≡◌};
ghost use Rattle.play_score.specs.Lines.{missing_at, missing_in};

// How many bytes of an input choose the parts of a sheet, four for each, and where those of the second and third begin.
pub const CHOICE: usize = 12;

pub const SECOND: usize = 4;

pub const THIRD: usize = 8;

// The numbers of the parts whose outputs a sheet shows.
#[derive(Clone, Copy, Debug, PartialEq, Eq)]
pub struct Choice {
    pub first: usize,
    pub second: usize,
    pub third: usize,
}

// What is printed of an answer: a plain line, or a sheet line with the chosen parts.
#[derive(Clone, Copy, Debug, PartialEq, Eq)]
pub enum Format {
    Plain,
    Sheet(Choice),
}

// The position of the first choice that names none of so many parts, where one does.
#[tactic(auto, unfolding(crate::specs::Lines::missing_at))]
fn missing_choice(count: usize, choice: Choice) -> Option<usize>
    ensures { result ≡ missing_at count choice }
{
    if choice.first >= count {
        return Some(0);
    }
    if choice.second >= count {
        return Some(SECOND);
    }
    if choice.third >= count {
        return Some(THIRD);
    }
    None
}

// The same of a format. No choice is missing for plain lines.
#[tactic(auto, unfolding(crate::specs::Lines::missing_in))]
pub(crate) fn missing_of(count: usize, format: Format) -> Option<usize>
    ensures { result ≡ missing_in count format }
{
    match format {
        Format::Plain => None,
        Format::Sheet(choice) => missing_choice(count, choice),
    }
}
