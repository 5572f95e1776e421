// Numbers and the fields of a part as words of 64 bits, and back: a signed number in two's complement, and a number for
// each case of an enum. The crate `words_store` lays a model's words out of them. The contracts cite
// `specs/Words.antt`, `specs/Encoded.antt` and `specs/Decoded.antt`.
#![tactic(auto)]

pub mod fields;
pub mod word;
