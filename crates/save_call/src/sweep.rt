// The two sweeps over a table that a save makes: one for the length of its bytes, and one that puts them. The contracts
// cite `specs/LentTable.antt` and the machine's `specs/TableBytes.antt`.
ghost use Rattle.std.specs.Prelude.{◌≡◌, true, ◌+◌, ◌≤◌, length};
ghost use Rattle.machine.specs.Sound.{table_fits};
ghost use Rattle.machine.specs.TableBytes.{parts_bytes, port_bytes, table_bytes, wires_bytes};
ghost use Rattle.words_store.specs.ModelIn.{part_count, table_words};
ghost use Rattle.write_bytes.specs.Put.{Put};
ghost use Rattle.save_call.specs.LentTable.{lent_table};

use crate::writer::{put_begin, put_component, put_wires};
use load_operands::refusal::END_BYTE;
use machine::part::Source;
use words_store::lookup::{
    component_at, magnitude_of, parts_of, port0_at, port1_at, span_count_at,
};
use write_bytes::put::put_byte;

// How many bytes the parts of a table with their spans take, and its wires.
#[derive(Clone, Copy)]
pub struct Lengths {
    pub parts: usize,
    pub wires: usize,
}

// How many bytes the Wire into a port takes.
#[tactic(auto, unfolding(machine::specs::TableBytes::port_bytes))]
fn wire_length(s: Source) -> usize
    ensures { result ≡ length (port_bytes 0 0 s) }
{
    match s {
        Source::Unwired => 0,
        Source::From(_) => 4,
    }
}

// The lengths of a table that fits.
pub(crate) fn lengths_of(table: &[u64]) -> Lengths
    requires table_there { table_words (part_count table.now) ≤ length table.now }
    requires fits { table_fits (lent_table table.now) ≡ true }
    ensures parts_length { result.parts ≡ length (parts_bytes (lent_table table.now).parts) }
    ensures wires_length { result.wires ≡ length (wires_bytes 0 (lent_table table.now).parts) }
    ensures few_bytes { (result.parts ≤ 1760) × (result.wires ≤ 256) }
{
    let mut parts: usize = 0;
    let mut wires: usize = 0;
    for i in 0..parts_of(table) {
        parts += 15 + 5 * span_count_at(table, i);
        wires += wire_length(port0_at(table, i)) + wire_length(port1_at(table, i));
    }
    Lengths { parts, wires }
}

// The bytes of a table that fits, into a buffer that has room for them, its wires from position `wires` on. One sweep
// puts each part where the one before it ends, and its wires where those before them do.
pub(crate) fn put_table(table: &[u64], wires: usize, out: &mut [u8]) -> usize
    requires table_there { table_words (part_count table.now) ≤ length table.now }
    requires fits { table_fits (lent_table table.now) ≡ true }
    requires wires_start { wires ≡ length (parts_bytes (lent_table table.now).parts) + 2 }
    requires room { length (table_bytes (lent_table table.now)) ≤ length out.old }
    ensures { Put (length (table_bytes (lent_table table.now)))
        (table_bytes (lent_table table.now)) 0 out.old out.new result }
{
    let mut at = put_begin(out, 0, magnitude_of(table));
    let mut next = wires;
    for i in 0..parts_of(table) {
        let c = component_at(table, i);
        at = put_component(out, at, c);
        next = put_wires(out, next, i, c);
    }
    put_byte(out, next, END_BYTE)
}
