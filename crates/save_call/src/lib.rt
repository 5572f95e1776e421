// Saving: the bytes of a model's table, written into a buffer that the caller lends. The call is `save`, on lent words;
// its contract cites `specs/SavedInto.antt`, which is made of the machine's `specs/Save.antt` and `specs/Writing.antt`.
#![tactic(auto)]

ghost use Rattle.std.specs.Prelude.{◌≡◌, true, ◌≤◌, length};
ghost use Rattle.machine.specs.Sound.{table_fits};
ghost use Rattle.machine.specs.TableBytes.{table_bytes};
ghost use Rattle.machine.specs.Writing.{WrittenAs};
ghost use Rattle.refusals.specs.Unwritten.{written_of};
ghost use Rattle.words_store.specs.ModelIn.{part_count, table_words};
ghost use Rattle.save_call.specs.LentTable.{lent_table};
ghost use Rattle.save_call.specs.SavedInto.{SavedInto};

use crate::sweep::{lengths_of, put_table};
use refusals::{Refusal, Unwritten};
use sound_test::is_sound_in;

mod sweep;
mod writer;

// The bytes of a table that fits, where the buffer has room for them: their length is worked out before any is put.
fn save_table(table: &[u64], out: &mut [u8]) -> Result<usize, Unwritten>
    requires table_there { table_words (part_count table.now) ≤ length table.now }
    requires fits { table_fits (lent_table table.now) ≡ true }
    ensures { WrittenAs 0 (table_bytes (lent_table table.now)) out.old
        out.new (written_of result) }
{
    let lengths = lengths_of(table);
    let wires = lengths.parts + 2;
    let length = wires + lengths.wires + 1;
    if out.len() < length {
        return Err(Unwritten::Short(length));
    }
    Ok(put_table(table, wires, out))
}

// The bytes of the table of a model in lent words, whatever they are, written into `out`: 24 where the words spell no
// sound model, then 25 where the bytes do not fit, with the length that they need. The words of the table and of the
// state are kept, as their types say.
pub fn save(table: &[u64], state: &[u64], out: &mut [u8]) -> Result<usize, Unwritten>
    ensures { SavedInto table.now state.now out.old out.new (written_of result) }
{
    if !is_sound_in(table, state) {
        return Err(Unwritten::Refused(Refusal::NotSound));
    }
    save_table(table, out)
}
