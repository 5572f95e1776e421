// Signals: what a stored output is, and what a port reads.

// A value, from -1,000,000,000 to 1,000,000,000, or absent. It is no Option: document 01 has an enum Value or Absent.
#[derive(Clone, Copy, Debug, PartialEq, Eq)]
pub enum Signal {
    Absent,
    Value(i64),
}
