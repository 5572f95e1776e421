// A table's commands in turn, up to its End. Its contracts cite `specs/Concluded.antt`.
ghost use Rattle.std.specs.Prelude.{ℕ, ◌≡◌, List, map, replicate, take};
ghost use Rattle.machine.specs.Model.{most_parts, most_spans, trimmed_component};
ghost use Rattle.machine.specs.Load.{load, nothing_read};
ghost use Rattle.load_commands.specs.Progress.{joined, reading_of};
ghost use Rattle.load_table.specs.Concluded.{EndedRead, Stopped, concluded, empty_component};

use crate::turn::{command_at, rows_after};
use load_commands::progress::Progress;
use machine::model::PARTS;
use machine::part::{Component, Kind, SPANS, Source};
use refusals::RefusedAt;

// A component with all of it 0.
#[tactic(auto, unfolding(crate::specs::Concluded::empty_component))]
pub fn blank_component() -> Component
    ensures { result ≡ empty_component }
{
    Component {
        kind: Kind::Constant,
        preference: 0,
        a: 0,
        b: 0,
        p: 0,
        span_count: 0,
        spans: [0; SPANS],
        port0: Source::Unwired,
        port1: Source::Unwired,
    }
}

// Where reading begins: nothing was read. Free are a progress's unused places.
#[tactic(auto, unfolding(load_commands::specs::Progress::reading_of, load_commands::specs::Progress::joined))]
fn nothing_read() -> Progress
    ensures { (rows : List (List ℕ)) → reading_of result rows ≡ nothing_read }
{
    Progress {
        begun: false,
        spannable: false,
        magnitude: 0,
        count: 0,
        parts: [blank_component(); PARTS],
    }
}

// The rows before any span was read.
fn no_spans() -> [[u32; SPANS]; PARTS]
    ensures { result ≡ replicate most_parts (replicate most_spans 0) }
{
    [[0; SPANS]; PARTS]
}

// The parts with their rows of spans. Free are the places of a row that no span is in.
fn with_rows(parts: [Component; PARTS], rows: [[u32; SPANS]; PARTS]) -> [Component; PARTS]
    ensures { (count : ℕ) → map trimmed_component (take count result) ≡ joined (take count parts) rows }
{
    let mut next = parts;
    for i in 0..PARTS {
        let row = rows[i];
        next[i].spans = row;
    }
    next
}

// The table that was read up to its End, at the position: the first `count` parts, with their spans.
#[derive(Clone, Copy)]
pub struct TableRead {
    pub position: usize,
    pub magnitude: u8,
    pub count: usize,
    pub parts: [Component; PARTS],
}

// End at a position, after the progress and its rows. Free are the bytes of unused places.
fn ended_read(at: usize, progress: Progress, rows: [[u32; SPANS]; PARTS]) -> TableRead
    ensures { EndedRead at (reading_of progress rows).table result }
{
    let parts = with_rows(progress.parts, rows);
    TableRead {
        position: at,
        magnitude: progress.magnitude,
        count: progress.count,
        parts,
    }
}

// The table at the start of a stream, read up to its End, or the first refusal with its position. Free are the bytes of
// unused places.
pub fn read_table(s: &[u8]) -> Result<TableRead, RefusedAt>
    ensures loads { load s.now ≡ concluded result }
    ensures stopped { Stopped s.now result }
{
    let mut at: usize = 0;
    let mut progress = nothing_read();
    let mut rows = no_spans();
    while let Some(step) = command_at(s, at, progress, rows)? {
        let next = rows_after(rows, progress, step.span);
        rows = next;
        progress = step.progress;
        at = step.next;
    }
    Ok(ended_read(at, progress, rows))
}
