// Playing a score: its commands in turn, each with its line, as many as a buffer has room for. The model is in words:
// those of a table, and two states of it. A step is made from the one state into the other, and a flag says in which
// of the two the rehearsal is; no model is copied. The contracts cite `specs/Playing.antt`.
ghost use Rattle.std.specs.Prelude.{◌≡◌, cond, ◌≤◌, length};
ghost use Rattle.play_score.specs.Held.{held_in, HasRoom, SameBuffer};
ghost use Rattle.play_score.specs.Playing.{
  stands_in,
  most_state_words,
  Playable,
  PlayedWanted,
  CommandPlayed,
  Batched,
};

use crate::format::Format;
use crate::lines::Lines;
use advance_call::advance_sound_into;
use load_operands::score::{Wanted, score_at};

// What playing came to: the position of the next command, none where the score ended; and whether the rehearsal is now
// in the other state.
#[derive(Clone, Copy, Debug, PartialEq, Eq)]
pub struct Played {
    pub next: Option<usize>,
    pub moved: bool,
}

// One advance of the state `old` by at most the wanted step, into `new`, with its line.
// After a refused call the rehearsal is still in the old state.
fn play_wanted(
    table: &[u64],
    old: &[u64],
    wanted: Wanted,
    format: Format,
    new: &mut [u64],
    lines: &mut Lines<'_>,
) -> Played
    requires playable { Playable table.now old.now format }
    requires state_room { most_state_words ≤ length new.old }
    requires line_room { HasRoom (held_in lines.old) }
    ensures same_buffer { SameBuffer lines.old lines.new }
    ensures played { let left = cond result.moved new.new old.now in
        PlayedWanted table.now old.now wanted.step wanted.next format
        left (held_in lines.old) (held_in lines.new) result }
{
    let v = advance_sound_into(table, old, wanted.step, new);
    if v.number != 0 {
        lines.put_answer(format, table, old, v);
        return Played {
            next: Some(wanted.next),
            moved: false,
        };
    }
    lines.put_answer(format, table, new, v);
    Played {
        next: Some(wanted.next),
        moved: true,
    }
}

// One score command, asked of the state `old`, with its line.
fn play_command(
    stream: &[u8],
    at: usize,
    table: &[u64],
    old: &[u64],
    format: Format,
    new: &mut [u64],
    lines: &mut Lines<'_>,
) -> Played
    requires playable { Playable table.now old.now format }
    requires state_room { most_state_words ≤ length new.old }
    requires line_room { HasRoom (held_in lines.old) }
    ensures same_buffer { SameBuffer lines.old lines.new }
    ensures played { let left = cond result.moved new.new old.now in
        CommandPlayed stream.now at table.now old.now format
        left (held_in lines.old) (held_in lines.new) result }
{
    match score_at(stream, at) {
        Ok(None) => Played {
            next: None,
            moved: false,
        },
        Ok(Some(wanted)) => play_wanted(table, old, wanted, format, new, lines),
        Err(refused) => {
            let number = refused.refusal.number();
            lines.put_refused_at(number, refused.position);
            Played {
                next: None,
                moved: false,
            }
        }
    }
}

// One score command, asked of the state that the rehearsal is in: the second of the two where they are exchanged. It
// is then in the second where the answer says `moved`. Two calls, and no exchange of the two references: after one the
// proof of `returns` has no name for the words that each of them ends with.
fn play_exchanged(
    stream: &[u8],
    at: usize,
    exchanged: bool,
    table: &[u64],
    first: &mut [u64],
    second: &mut [u64],
    format: Format,
    lines: &mut Lines<'_>,
) -> Played
    requires playable { Playable table.now (stands_in exchanged first.old second.old) format }
    requires first_room { most_state_words ≤ length first.old }
    requires second_room { most_state_words ≤ length second.old }
    requires line_room { HasRoom (held_in lines.old) }
    ensures same_buffer { SameBuffer lines.old lines.new }
    ensures played { let asked = stands_in exchanged first.old second.old in
        let left = stands_in result.moved first.new second.new in
        CommandPlayed stream.now at table.now asked format
        left (held_in lines.old) (held_in lines.new) result }
{
    if exchanged {
        let back = play_command(stream, at, table, second, format, first, lines);
        return Played {
            moved: !back.moved,
            ..back
        };
    }
    play_command(stream, at, table, first, format, second, lines)
}

// The score commands from `from` on, in a buffer that is emptied, as long as there is room for another line. It counts
// nothing: each command tells where the next one is, and the buffer how much room is left.
pub fn play_batch(
    stream: &[u8],
    from: usize,
    exchanged: bool,
    table: &[u64],
    first: &mut [u64],
    second: &mut [u64],
    format: Format,
    lines: &mut Lines<'_>,
) -> Played
    requires playable { Playable table.now (stands_in exchanged first.old second.old) format }
    requires first_room { most_state_words ≤ length first.old }
    requires second_room { most_state_words ≤ length second.old }
    ensures batched { let asked = stands_in exchanged first.old second.old in
        let left = stands_in result.moved first.new second.new in
        Batched stream.now from table.now asked format left (held_in lines.new) result }
    ensures still_playable { let left = stands_in result.moved first.new second.new in
        Playable table.now left format }
    ensures same_size { length lines.new.bytes.now ≡ length lines.old.bytes.now }
    ensures same_buffer { SameBuffer lines.old lines.new }
{
    let mut at = from;
    let mut turned = exchanged;
    lines.clear();
    while lines.has_room() {
        let played = play_exchanged(stream, at, turned, table, first, second, format, lines);
        let Some(next) = played.next else {
            return played;
        };
        at = next;
        turned = played.moved;
    }
    Played {
        next: Some(at),
        moved: turned,
    }
}
