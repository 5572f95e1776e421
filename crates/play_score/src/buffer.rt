// What is done with a buffer of lines: a line is put after those that it holds. The contracts cite `specs/Held.antt`.
ghost use Rattle.std.specs.Prelude.{◌≡◌, Decides};
ghost use Rattle.machine.specs.Rehearse.{refused_at_line};
ghost use Rattle.sheet_call.specs.SheetInto.{outcome_answer};
ghost use Rattle.play_score.specs.Lines.{line_of};
ghost use Rattle.play_score.specs.Held.{held_in, text_held, no_line, HasRoom, LinePut, SameBuffer};
ghost use Rattle.play_score.specs.Playing.{AnswerIn};

use crate::format::Format;
use crate::lines::Lines;
use machine::model::Outcome;
use sheet_call::sheet;
use write_lines::lent_line::write_spelled;
use write_lines::line::write_refused_at;

// How many bytes have room for any line, of either format.
const LINE: usize = 1024;

impl<'a> Lines<'a> {
    // A buffer that holds no line yet.
    pub fn new(bytes: &'a mut [u8]) -> Lines<'a>
        ensures same_buffer { result.bytes.ghost_name ≡ bytes.entry.ghost_name }
        ensures empty { held_in result ≡ no_line bytes.old }
    {
        Lines { bytes, used: 0 }
    }

    // The buffer is empty again.
    pub fn clear(&mut self)
        ensures same_buffer { SameBuffer self.old self.new }
        ensures empty { held_in self.new ≡ no_line self.old.bytes.now }
    {
        self.used = 0;
    }

    // Whether there is room for any line.
    pub fn has_room(&self) -> bool
        ensures { Decides result (HasRoom (held_in self.now)) }
    {
        self.bytes.len() - self.used >= LINE
    }

    // The text of all lines.
    pub fn text(&self) -> &[u8]
        ensures { result.now ≡ text_held (held_in self.now) }
    {
        &self.bytes[..self.used]
    }

    // The line of a load or score refusal is put.
    pub(crate) fn put_refused_at(&mut self, number: u64, position: usize)
        requires { HasRoom (held_in self.old) }
        ensures same_buffer { SameBuffer self.old self.new }
        ensures line_put { LinePut (refused_at_line number position) (held_in self.old) (held_in self.new) }
    {
        let length = write_refused_at(number, position, &mut self.bytes[self.used..]).unwrap();
        self.used += length;
    }

    // The line of an answer is put, the call having ended so and left the state `state`.
    pub(crate) fn put_answer(&mut self, format: Format, table: &[u64], state: &[u64], v: Outcome)
        requires answer_in { AnswerIn table.now state.now v format }
        requires line_room { HasRoom (held_in self.old) }
        ensures same_buffer { SameBuffer self.old self.new }
        ensures line_put { let answer = outcome_answer table.now state.now v in
            LinePut (line_of answer format) (held_in self.old) (held_in self.new) }
    {
        let rest = &mut self.bytes[self.used..];
        match format {
            Format::Plain => self.used += write_spelled(table, state, v, rest).unwrap(),
            Format::Sheet(choice) => {
                self.used += sheet(
                    table,
                    state,
                    v,
                    choice.first,
                    choice.second,
                    choice.third,
                    rest,
                )
                .unwrap();
            }
        }
    }
}
