// A model, and what advancing and a preview answer.
use crate::part::Part;
use crate::time::Point;

// How many parts a model has room for.
pub const PARTS: usize = 32;

// A model. Of `order` and `parts` the first `count` places are in use, arrays since there is no heap; `order` is the
// part order that loading gave.
#[derive(Clone, Copy)]
pub struct Model {
    pub magnitude: u8,
    pub count: usize,
    pub order: [u16; PARTS],
    pub point: Point,
    pub parts: [Part; PARTS],
}

// What advancing answers: the model, document 01's number (0: committed) and the counts. It is no Result: a refused
// call has its rounds, revisions and last ceiling too.
#[derive(Clone, Copy)]
pub struct Answer {
    pub model: Model,
    pub number: u64,
    pub step: u64,
    pub rounds: u64,
    pub revisions: u64,
    pub ceiling: u64,
}

// How a call ends: document 01's number (0: committed) and the counts. Where the model is in lent words, this is the
// answer. It is no Result for the same reason, and since `dozhumek_sheet` reads one from words with any number.
#[derive(Clone, Copy)]
pub struct Outcome {
    pub number: u64,
    pub step: u64,
    pub rounds: u64,
    pub revisions: u64,
    pub ceiling: u64,
}

// What a preview returns: the model handed in, and the answer that an advance of it has.
#[derive(Clone, Copy)]
pub struct Preview {
    pub given: Model,
    pub answer: Answer,
}
