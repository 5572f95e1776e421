// Bytes and texts put into a buffer. Each function puts one at a position and returns the position after it;
// `specs/Put.antt` says what it leaves there.
ghost use Rattle.std.specs.Prelude.{◌∷◌, [], ◌+◌, ◌<◌, ◌≤◌, length};
ghost use Rattle.write_bytes.specs.Put.{Put};

// One byte.
pub fn put_byte(line: &mut [u8], at: usize, b: u8) -> usize
    requires { at < length line.old }
    ensures { Put 1 (b ∷ []) at line.old line.new result }
{
    line[at] = b;
    at + 1
}

// A text as it is. It is put byte after byte: for a copy by the library the compiler would call the C library's
// `memmove`, which the archive then needs.
pub fn put_text(line: &mut [u8], at: usize, text: &[u8]) -> usize
    requires { at + length text.now ≤ length line.old }
    ensures { Put (length text.now) text.now at line.old
        line.new result }
{
    let mut next = at;
    for byte in text {
        next = put_byte(line, next, *byte);
    }
    next
}
