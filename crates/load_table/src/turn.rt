// One command of a table in its turn, after the progress and the rows of spans with it. Its contracts cite
// `specs/Turning.antt` and `specs/Turned.antt`.
ghost use Rattle.std.specs.Prelude.{◌<◌, ◌≡◌, IfOk, IsSome, length, true};
ghost use Rattle.machine.specs.Load.{byte_at, read_turn, span_command};
ghost use Rattle.load_operands.specs.Refusals.{command_byte};
ghost use Rattle.load_commands.specs.Progress.{reading_of};
ghost use Rattle.load_commands.specs.CommandSteps.{rows_after, step_of, uncut};
ghost use Rattle.sound_laws.specs.Accepted.{Readable};
ghost use Rattle.load_table.specs.Turned.{TurnLeft, Turned, turn_of};
ghost use Rattle.load_table.specs.Turning.{Room, Spannable, sized_command};

use load_commands::progress::Progress;
use load_commands::rows::{last_span, with_span};
use load_commands::table_command::{Step, begin, part, span, wire};
use load_operands::refusal::{Command, command_in_place};
use machine::model::PARTS;
use machine::part::SPANS;
use refusals::{Refusal, RefusedAt};

// The Span at a position, after the progress and its rows.
fn span_beside(
    s: &[u8],
    at: usize,
    progress: Progress,
    rows: [[u32; SPANS]; PARTS],
) -> Result<Step, Refusal>
    requires here { at < length s.now }
    requires spannable { Spannable progress }
    ensures meant { step_of progress rows at result ≡
        uncut s.now at 5 (span_command s.now at (reading_of progress rows)) }
    ensures room { IfOk result (λ step. Room progress) }
{
    let k = progress.count - 1;
    let last = last_span(rows[k], progress.parts[k].span_count);
    span(s, at, progress, last)
}

// The step of a command that is in place, after the progress and its rows; at End there is none.
fn placed(
    s: &[u8],
    at: usize,
    progress: Progress,
    rows: [[u32; SPANS]; PARTS],
    command: Command,
) -> Result<Option<Step>, Refusal>
    requires here { at < length s.now }
    requires begun { command ≡ Command.End → progress.begun ≡ true }
    requires spannable { command ≡ Command.Span → Spannable progress }
    ensures meant { sized_command s.now at (reading_of progress rows) (command_byte command) ≡
        turn_of at progress rows result }
    ensures left { TurnLeft progress (command_byte command) result }
{
    match command {
        Command::Begin => Ok(Some(begin(s, at, progress)?)),
        Command::Part => Ok(Some(part(s, at, progress)?)),
        Command::Span => Ok(Some(span_beside(s, at, progress, rows)?)),
        Command::Wire => Ok(Some(wire(s, at, progress)?)),
        Command::End => Ok(None),
    }
}

// The rows after a step: a Span's value is in the last part's row.
pub(crate) fn rows_after(
    rows: [[u32; SPANS]; PARTS],
    progress: Progress,
    span: Option<u32>,
) -> [[u32; SPANS]; PARTS]
    requires { IsSome span → Room progress }
    ensures { result ≡ rows_after progress rows span }
{
    let Some(v) = span else {
        return rows;
    };
    let k = progress.count - 1;
    with_span(rows, k, progress.parts[k].span_count, v)
}

// The step of the command at a position of the stream, after the progress and its rows; at End there is none.
fn turn(
    s: &[u8],
    at: usize,
    progress: Progress,
    rows: [[u32; SPANS]; PARTS],
) -> Result<Option<Step>, Refusal>
    requires here { at < length s.now }
    requires readable { Readable (reading_of progress rows) }
    ensures meant { read_turn s.now at (reading_of progress rows) ≡ turn_of at progress rows result }
    ensures left { TurnLeft progress (byte_at s.now at) result }
{
    let command = command_in_place(progress.begun, progress.spannable, s[at])?;
    placed(s, at, progress, rows, command)
}

// The turn at a position, after the progress and its rows: the step of its command, and none at End; or its refusal,
// with the position. A match, since what `map_err` gives with a closure tells the goal `returns` no position.
pub(crate) fn command_at(
    s: &[u8],
    at: usize,
    progress: Progress,
    rows: [[u32; SPANS]; PARTS],
) -> Result<Option<Step>, RefusedAt>
    requires { Readable (reading_of progress rows) }
    ensures { Turned s.now at progress rows result }
{
    if at >= s.len() {
        let cut = Refusal::Cut.at(s.len());
        return Err(cut);
    }
    match turn(s, at, progress, rows) {
        Ok(step) => Ok(step),
        Err(refusal) => Err(refusal.at(at)),
    }
}
