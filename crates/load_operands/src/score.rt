// The score's commands: what the score holds at a position of the stream. Its promise cites `specs/ScoreRead.antt`, and
// the machine's `Score.antt`.
ghost use Rattle.std.specs.Prelude.{◌≡◌};
ghost use Rattle.machine.specs.Score.{score_at};
ghost use Rattle.load_operands.specs.ScoreRead.{score_of};

use crate::cursor::{Cursor, byte, u32_at};
use crate::refusal::{BEGIN_BYTE, END_BYTE, WANT_BYTE};
use refusals::{Refusal, RefusedAt};

// A wanted step of the score, and the position after its command.
#[derive(Clone, Copy, Debug, PartialEq, Eq)]
pub struct Wanted {
    pub step: u64,
    pub next: usize,
}

// What the score holds at position `at` of the stream `s`: a wanted step (6), or its end, which is none; or a refusal:
// 3 for a table's command (1 to 5), 2 for another byte, 1 for a command that the stream's end cuts.
pub fn score_at(s: &[u8], at: usize) -> Result<Option<Wanted>, RefusedAt>
    ensures { score_of result ≡ score_at s.now at }
{
    let Some((b, c)) = byte(s, Cursor { at }) else {
        return Ok(None);
    };
    match b {
        WANT_BYTE => {
            let Some((step, c)) = u32_at(s, c) else {
                return Err(Refusal::Cut.at(at));
            };
            Ok(Some(Wanted {
                step: u64::from(step),
                next: c.at,
            }))
        }
        BEGIN_BYTE..=END_BYTE => Err(Refusal::OutOfPlace.at(at)),
        _ => Err(Refusal::UnknownCommand.at(at)),
    }
}
