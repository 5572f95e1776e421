// The rows of spans while a table is read: an array of 32 arrays of eight spans, by value.
// Its contracts cite `specs/Spanned.antt`.
ghost use Rattle.std.specs.Prelude.{◌<◌, ◌≤◌, ◌≡◌};
ghost use Rattle.machine.specs.Model.{most_parts};
ghost use Rattle.load_commands.specs.Spanned.{LastOf, last_of, row_with};

use machine::model::PARTS;
use machine::part::SPANS;

// The rows with a span in place n of row k.
#[tactic(auto, unfolding(crate::specs::Spanned::row_with))]
pub fn with_span(rows: [[u32; SPANS]; PARTS], k: usize, n: usize, v: u32) -> [[u32; SPANS]; PARTS]
    requires { (k < most_parts) × (n < 8) }
    ensures { result ≡ row_with rows k n v }
{
    let mut next = rows;
    next[k][n] = v;
    next
}

// The last of these spans, 0 where there is none.
#[tactic(auto, unfolding(crate::specs::Spanned::last_of))]
fn last_of(spans: &[u32]) -> u32
    ensures { result ≡ last_of spans.now }
{
    spans.last().copied().unwrap_or(0)
}

// The last of the first n spans of a row, 0 where there is none. The row goes by value, as document 01 has the rows: of
// a row lent from the array of rows no clause tells the length.
pub fn last_span(row: [u32; SPANS], n: usize) -> u32
    requires { n ≤ 8 }
    ensures { LastOf row n result }
{
    last_of(&row[..n])
}
