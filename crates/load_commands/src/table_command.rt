// The commands: each reads all its operands, then judges them, and answers a refusal or what is left after it.
// Its contracts cite `specs/CommandSteps.antt`, and the machine's `specs/Load.antt`.
ghost use Rattle.std.specs.Prelude.{ℕ, ◌<◌, ◌≡◌, IfOk, List, None, length};
ghost use Rattle.machine.specs.Load.{begin_command, part_command, wire_command};
ghost use Rattle.machine.specs.Model.{most_spans};
ghost use Rattle.load_commands.specs.Beside.{span_stepped};
ghost use Rattle.load_commands.specs.CommandSteps.{step_of, uncut};
ghost use Rattle.load_commands.specs.Progress.{reading_of};
ghost use Rattle.load_commands.specs.Spanned.{RowThere, span_count};

use crate::progress::Progress;
use load_operands::cursor::{Cursor, byte, u32_at};
use load_operands::operands::{part_operands, wire_operands};
use load_operands::refusal::{begin_refusal, part_refusal, span_refusal};
use refusals::Refusal;

// What is left after a command: the position and the progress after it, and a Span's value, which goes into the last
// part's row. Free are the unused places of a progress (`progress.rt`).
#[derive(Clone, Copy)]
pub struct Step {
    pub next: usize,
    pub progress: Progress,
    pub span: Option<u32>,
}

// The Begin at a position.
pub fn begin(s: &[u8], at: usize, progress: Progress) -> Result<Step, Refusal>
    requires { at < length s.now }
    ensures meant { (rows : List (List ℕ)) →
        step_of progress rows at result ≡ uncut s.now at 2 (begin_command s.now at) }
    ensures spanless { IfOk result (λ step. step.span ≡ None) }
{
    let Some((e, c)) = byte(s, Cursor { at: at + 1 }) else {
        return Err(Refusal::Cut);
    };
    begin_refusal(e)?;
    Ok(Step {
        next: c.at,
        progress: progress.with_begin(e),
        span: None,
    })
}

// The Part at a position.
pub fn part(s: &[u8], at: usize, progress: Progress) -> Result<Step, Refusal>
    requires { at < length s.now }
    ensures meant { (rows : List (List ℕ)) →
        step_of progress rows at result ≡
        uncut s.now at 15 (part_command s.now at (reading_of progress rows)) }
    ensures spanless { IfOk result (λ step. step.span ≡ None) }
{
    let Some((o, c)) = part_operands(s, Cursor { at: at + 1 }) else {
        return Err(Refusal::Cut);
    };
    part_refusal(progress.count, o)?;
    Ok(Step {
        next: c.at,
        progress: progress.with_part(o),
        span: None,
    })
}

// The Wire at a position.
pub fn wire(s: &[u8], at: usize, progress: Progress) -> Result<Step, Refusal>
    requires { at < length s.now }
    ensures meant { (rows : List (List ℕ)) →
        step_of progress rows at result ≡
        uncut s.now at 4 (wire_command s.now at (reading_of progress rows)) }
    ensures spanless { IfOk result (λ step. step.span ≡ None) }
{
    let Some((o, c)) = wire_operands(s, Cursor { at: at + 1 }) else {
        return Err(Refusal::Cut);
    };
    progress.wire_refusal(o)?;
    Ok(Step {
        next: c.at,
        progress: progress.with_wire(o),
        span: None,
    })
}

// The Span at a position, the last part's last span being given.
pub fn span(s: &[u8], at: usize, progress: Progress, last: u32) -> Result<Step, Refusal>
    requires here { at < length s.now }
    requires some { 0 < progress.count }
    ensures meant { (rows : List (List ℕ)) → RowThere progress rows →
        step_of progress rows at result ≡
        uncut s.now at 5 (span_stepped s.now at progress last rows) }
    ensures room { IfOk result (λ step. span_count progress < most_spans) }
{
    let Some((v, c)) = u32_at(s, Cursor { at: at + 1 }) else {
        return Err(Refusal::Cut);
    };
    let k = progress.count - 1;
    span_refusal(progress.parts[k].span_count, last, v)?;
    Ok(Step {
        next: c.at,
        progress: progress.with_span_counted(k),
        span: Some(v),
    })
}
