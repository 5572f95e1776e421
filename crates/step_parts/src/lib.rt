// The steps of a whole model, in words: every part moved, the outputs of a point filled in part order, every part
// settled, and the step that these make; and the start point of a model filled. The contracts cite
// definitions of `machine` and of this crate's `specs/`.
#![tactic(auto)]

mod filling;
pub mod heard;
mod moving;
pub mod settling;
pub mod start;
pub mod step;
