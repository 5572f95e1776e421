// The commands of a table, put into a buffer. Each function puts some at a position and returns the position after
// them; the machine's `specs/TableBytes.antt` says which bytes they are, and `write_bytes`'s `specs/Put.antt` what is
// left in the buffer.
ghost use Rattle.std.specs.Prelude.{◌≡◌, true, ◌∷◌, [], ◌++◌, ◌+◌, ◌*◌, ◌≤◌, ◌<◌, length};
ghost use Rattle.machine.specs.Kind.{kind_number, operands_fit};
ghost use Rattle.machine.specs.Load.{begin_byte, part_byte, wire_byte};
ghost use Rattle.machine.specs.Model.{trimmed_component};
ghost use Rattle.machine.specs.Signal.{is_value};
ghost use Rattle.machine.specs.TableBytes.{operand_bytes, port_bytes, signed_operand, spans_bytes};
ghost use Rattle.write_bytes.specs.Put.{Put};
ghost use Rattle.save_call.specs.LentTable.{SourceInByte, part_text, wires_text};

use load_operands::refusal::{BEGIN_BYTE, PART_BYTE, SPAN_BYTE, WIRE_BYTE};
use machine::part::{Component, Kind, Source};
use write_bytes::put::{put_byte, put_text};

// Begin.
pub(crate) fn put_begin(out: &mut [u8], at: usize, magnitude: u8) -> usize
    requires { at + 2 ≤ length out.old }
    ensures { Put 2 (begin_byte ∷ magnitude ∷ []) at out.old out.new result }
{
    let next = put_byte(out, at, BEGIN_BYTE);
    put_byte(out, next, magnitude)
}

// A number of four bytes, the lowest first.
fn put_operand(out: &mut [u8], at: usize, v: u32) -> usize
    requires { at + 4 ≤ length out.old }
    ensures { Put 4 (operand_bytes v) at out.old out.new result }
{
    put_text(out, at, &v.to_le_bytes())
}

// A value, signed, in four bytes.
fn put_signed(out: &mut [u8], at: usize, v: i64) -> usize
    requires room { at + 4 ≤ length out.old }
    requires value { is_value v ≡ true }
    ensures { Put 4 (operand_bytes (signed_operand v)) at out.old out.new result }
{
    let operand = v as i32;
    put_operand(out, at, operand.cast_unsigned())
}

// The first three bytes of a Part.
fn put_kind(out: &mut [u8], at: usize, kind: Kind, preference: u8) -> usize
    requires { at + 3 ≤ length out.old }
    ensures { Put 3 (part_byte ∷ kind_number kind ∷ preference ∷ []) at out.old
        out.new result }
{
    let next = put_byte(out, at, PART_BYTE);
    let next = put_byte(out, next, u8::from(kind));
    put_byte(out, next, preference)
}

// Its operands, of which a and b are values.
fn put_operands(out: &mut [u8], at: usize, a: i64, b: i64, p: u32) -> usize
    requires room { at + 12 ≤ length out.old }
    requires values { (is_value a ≡ true) × (is_value b ≡ true) }
    ensures { Put 12 (operand_bytes (signed_operand a) ++ (operand_bytes (signed_operand b) ++ operand_bytes p))
        at out.old out.new result }
{
    let next = put_signed(out, at, a);
    let next = put_signed(out, next, b);
    put_operand(out, next, p)
}

// One Span.
fn put_span(out: &mut [u8], at: usize, v: u32) -> usize
    requires { at + 5 ≤ length out.old }
    ensures { Put 5 (spans_bytes (v ∷ [])) at out.old out.new result }
{
    let next = put_byte(out, at, SPAN_BYTE);
    put_operand(out, next, v)
}

// Spans, one after the other.
fn put_spans(out: &mut [u8], at: usize, spans: &[u32]) -> usize
    requires { at + 5 * length spans.now ≤ length out.old }
    ensures { Put (5 * length spans.now) (spans_bytes spans.now) at out.old out.new result }
{
    let mut next = at;
    for span in spans {
        next = put_span(out, next, *span);
    }
    next
}

// A Part with its spans after it. The spans are taken out of the component, since one of which a slice is lent would be
// copied as a whole.
pub(crate) fn put_component(out: &mut [u8], at: usize, c: Component) -> usize
    requires few_spans { c.span_count ≤ 8 }
    requires room { at + 15 + 5 * c.span_count ≤ length out.old }
    requires fits { operands_fit c.kind c.a c.b c.p ≡ true }
    ensures { Put (15 + 5 * c.span_count) (part_text (trimmed_component c)) at out.old
        out.new result }
{
    let spans = c.spans;
    let next = put_kind(out, at, c.kind, c.preference);
    let next = put_operands(out, next, c.a, c.b, c.p);
    put_spans(out, next, &spans[..c.span_count])
}

// One Wire.
fn put_wire(out: &mut [u8], at: usize, source: u8, receiver: u8, port: u8) -> usize
    requires { at + 4 ≤ length out.old }
    ensures { Put 4 (wire_byte ∷ source ∷ receiver ∷ port ∷ []) at out.old out.new result }
{
    let next = put_byte(out, at, WIRE_BYTE);
    let next = put_byte(out, next, source);
    let next = put_byte(out, next, receiver);
    put_byte(out, next, port)
}

// The Wire into a port of the part `receiver`, none where nothing is wired to it.
fn put_port(out: &mut [u8], at: usize, receiver: usize, port: u8, s: Source) -> usize
    requires receiver_in_byte { receiver < 256 }
    requires source_in_byte { SourceInByte s }
    requires room { at + length (port_bytes receiver port s) ≤ length out.old }
    ensures { Put 4 (port_bytes receiver port s) at out.old out.new result }
{
    match s {
        Source::Unwired => at,
        Source::From(k) => put_wire(out, at, k as u8, receiver as u8, port),
    }
}

// The Wires into the part `receiver`, by port.
pub(crate) fn put_wires(out: &mut [u8], at: usize, receiver: usize, c: Component) -> usize
    requires receiver_in_byte { receiver < 256 }
    requires port0_in_byte { SourceInByte c.port0 }
    requires port1_in_byte { SourceInByte c.port1 }
    requires room { at + length (wires_text receiver c) ≤ length out.old }
    ensures { Put 8 (wires_text receiver c) at out.old out.new result }
{
    let next = put_port(out, at, receiver, 0, c.port0);
    put_port(out, next, receiver, 1, c.port1)
}
