// A buffer of lines. What it holds is in `specs/Held.antt`.
ghost use Rattle.std.specs.Prelude.{◌≤◌, length};

// The bytes of a buffer, and how many of them its lines take. It has no `impl Model`: the value of one would hide whose
// buffer it is, and a lender would not know what it gets back.
#[derive(Drop)]
pub struct Lines<'a> {
    pub(crate) bytes: &'a mut [u8],
    pub(crate) used: usize,
    ghost within: { used ≤ length bytes.now },
}
