// The model in words that the caller lends: where each number is, a part read as a record, a part's state written
// anew, and whether words spell a model. The contracts cite `specs/ModelIn.antt`, which says what model words mean.
#![tactic(auto)]

pub mod form;
pub mod layout;
pub mod lookup;
pub mod update;
