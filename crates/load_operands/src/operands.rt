// The operands of each command, all of them read before any is judged. A reader starts after the command byte and
// answers the operands and the cursor after them, or none where the stream is cut inside the command. Its contracts
// cite `specs/Operands.antt`.
ghost use Rattle.load_operands.specs.Operands.{ReadMeant, no_part, no_wire, part_operands_at, wire_operands_at};

use crate::cursor::{Cursor, byte, u32_at};

// The operands of a Part, the signed ones still as they are in the stream.
#[derive(Clone, Copy, Debug, PartialEq, Eq)]
pub struct PartOperands {
    pub kind: u8,
    pub preference: u8,
    pub a: u32,
    pub b: u32,
    pub p: u32,
}

// The operands of a Wire.
#[derive(Clone, Copy, Debug, PartialEq, Eq)]
pub struct WireOperands {
    pub source: u8,
    pub receiver: u8,
    pub port: u8,
}

// The operands of a Part.
pub fn part_operands(s: &[u8], c: Cursor) -> Option<(PartOperands, Cursor)>
    ensures { ReadMeant s.now c.at 14 (part_operands_at s.now c.at) no_part result }
{
    let Some((kind, c)) = byte(s, c) else {
        return None;
    };
    let Some((preference, c)) = byte(s, c) else {
        return None;
    };
    let Some((a, c)) = u32_at(s, c) else {
        return None;
    };
    let Some((b, c)) = u32_at(s, c) else {
        return None;
    };
    let Some((p, c)) = u32_at(s, c) else {
        return None;
    };
    let operands = PartOperands {
        kind,
        preference,
        a,
        b,
        p,
    };
    Some((operands, c))
}

// The operands of a Wire.
pub fn wire_operands(s: &[u8], c: Cursor) -> Option<(WireOperands, Cursor)>
    ensures { ReadMeant s.now c.at 3 (wire_operands_at s.now c.at) no_wire result }
{
    let Some((source, c)) = byte(s, c) else {
        return None;
    };
    let Some((receiver, c)) = byte(s, c) else {
        return None;
    };
    let Some((port, c)) = byte(s, c) else {
        return None;
    };
    let operands = WireOperands {
        source,
        receiver,
        port,
    };
    Some((operands, c))
}
