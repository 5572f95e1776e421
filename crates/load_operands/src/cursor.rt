// Operands read from a stream: one byte, and four little-endian. Each reader answers the operand and the cursor after
// it, or none where the stream ends before, which is refused with 1. Its contracts cite `specs/Operands.antt`.
ghost use Rattle.std.specs.Prelude.{◌≡◌};
ghost use Rattle.machine.specs.Load.{byte_at, signed, word_at};
ghost use Rattle.load_operands.specs.Operands.{ReadMeant};

// Where reading is in a stream.
#[derive(Clone, Copy, Debug, PartialEq, Eq)]
pub struct Cursor {
    pub at: usize,
}

// The byte at a cursor.
#[tactic(auto, using(crate::specs::Operands::cut_read))]
pub fn byte(s: &[u8], c: Cursor) -> Option<(u8, Cursor)>
    ensures { ReadMeant s.now c.at 1 (byte_at s.now c.at) 0 result }
{
    if c.at >= s.len() {
        return None;
    }
    Some((s[c.at], Cursor { at: c.at + 1 }))
}

// The four bytes at a cursor as a number, the lowest first.
#[tactic(auto, using(crate::specs::Operands::cut_read))]
pub fn u32_at(s: &[u8], c: Cursor) -> Option<(u32, Cursor)>
    ensures { ReadMeant s.now c.at 4 (word_at s.now c.at) 0 result }
{
    let at = c.at;
    if s.len().saturating_sub(at) < 4 {
        return None;
    }
    let word = u32::from_le_bytes([s[at], s[at + 1], s[at + 2], s[at + 3]]);
    Some((word, Cursor { at: at + 4 }))
}

// A number of four bytes as a signed one, in two's complement.
pub fn signed_of(v: u32) -> i64
    ensures { result ≡ signed v }
{
    i64::from(v.cast_signed())
}
