// The lines of a rehearsal, as they are written into a buffer that the caller lends. Its contracts cite the
// machine's definitions.
#![tactic(auto)]

pub mod length;
pub mod lent_line;
pub mod line;
pub mod text;
