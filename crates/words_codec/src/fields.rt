// The fields of a part that are one word each: numbers, and enums as the numbers of their cases. The trait
// `Field` has the words of a type's values and what each word means as one. A signal is two words.
//
// The contracts cite `specs/Encoded.antt` and `specs/Decoded.antt`, and the laws `specs/Fields.antt`.
ghost use Rattle.std.specs.Prelude.{◌≡◌, refl, ℕ, ◌≤◌, ⊤};
ghost use Rattle.machine.specs.Kind.{kind_number, kind_of};
ghost use Rattle.words_codec.specs.Words.{encode_signed, decode_signed};
ghost use Rattle.words_codec.specs.Encoded.{encode_mark, encode_side, encode_source};
ghost use Rattle.words_codec.specs.Decoded.{decode_mark, decode_side, decode_signal, decode_source};
ghost use Rattle.words_codec.specs.Sized.{FitsSigned, FitsSource, FitsWord};
ghost use Rattle.words_codec.specs.Fields.{kind_limit, mark_limit, side_limit, signed_limit, source_limit, word_limit};
ghost use Rattle.words_codec.specs.Fields.{kind_same, mark_same, side_same, signed_same, source_same};

use crate::word;
use machine::part::{Kind, Mark, Side, Source};
use machine::signal::Signal;

// A field that one word holds.
pub trait Field {
    // The word of a value, and the value that a word means, whatever word it is.
    ghost encoded: { Self → ℕ };

    ghost decoded: { ℕ → Self };

    // What the declared type guarantees of a value, and the largest word of one.
    ghost Fits: { Self → Type 0 };

    ghost most: { ℕ };

    // The word of a value.
    fn encode(self) -> u64
        ensures value { result ≡ encoded self }
        ensures fits { Fits self };

    // The value that a word means.
    fn decode(w: u64) -> Self
        ensures { result ≡ decoded w };

    // A value's word is at most the largest, and is read back as the value.
    ghost limited: { (x : Self) → Fits x → encoded x ≤ most };

    ghost read_back: { (x : Self) → Fits x → decoded (encoded x) ≡ x };
}

// A number without a sign is its own word.
impl Field for u64 {
    ghost encoded = { λ n. n };

    ghost decoded = { λ w. w };

    ghost Fits = { FitsWord };

    ghost most = { 18446744073709551615 };

    ghost limited = { word_limit };

    ghost read_back = { λ n _. refl };

    fn encode(self) -> u64 {
        self
    }

    fn decode(w: u64) -> u64 {
        w
    }
}

// A signed number is in two's complement.
impl Field for i64 {
    ghost encoded = { encode_signed };

    ghost decoded = { decode_signed };

    ghost Fits = { FitsSigned };

    ghost most = { 18446744073709551615 };

    ghost limited = { signed_limit };

    ghost read_back = { signed_same };

    fn encode(self) -> u64 {
        word::encode_signed(self)
    }

    fn decode(w: u64) -> i64 {
        word::decode_signed(w)
    }
}

// A kind is its number. A number that no kind has means the constant.
impl Field for Kind {
    ghost encoded = { kind_number };

    ghost decoded = { kind_of };

    ghost Fits = { λ _. ⊤ };

    ghost most = { 12 };

    ghost limited = { λ k _. kind_limit k };

    ghost read_back = { λ k _. kind_same k };

    fn encode(self) -> u64 {
        self as u64
    }

    #[tactic(auto, unfolding(machine::specs::Kind::kind_of, machine::specs::Kind::kind_known))]
    fn decode(w: u64) -> Kind {
        let Ok(number) = u8::try_from(w) else {
            return Kind::Constant;
        };
        Kind::try_from(number).unwrap_or(Kind::Constant)
    }
}

// A port is 0 unwired, k + 1 from part k.
impl Field for Source {
    ghost encoded = { encode_source };

    ghost decoded = { decode_source };

    ghost Fits = { FitsSource };

    ghost most = { 65536 };

    ghost limited = { source_limit };

    ghost read_back = { source_same };

    fn encode(self) -> u64 {
        match self {
            Source::Unwired => 0,
            Source::From(k) => k as u64 + 1,
        }
    }

    #[tactic(auto, unfolding(crate::specs::Decoded::decode_source))]
    fn decode(w: u64) -> Source {
        match w {
            0 => Source::Unwired,
            _ => Source::From(((w - 1) % 65536) as u16),
        }
    }
}

impl Field for Side {
    ghost encoded = { encode_side };

    ghost decoded = { decode_side };

    ghost Fits = { λ _. ⊤ };

    ghost most = { 2 };

    ghost limited = { λ s _. side_limit s };

    ghost read_back = { λ s _. side_same s };

    fn encode(self) -> u64 {
        self as u64
    }

    #[tactic(auto, unfolding(crate::specs::Decoded::decode_side))]
    fn decode(w: u64) -> Side {
        match w {
            1 => Side::Negative,
            2 => Side::Positive,
            _ => Side::Unset,
        }
    }
}

impl Field for Mark {
    ghost encoded = { encode_mark };

    ghost decoded = { decode_mark };

    ghost Fits = { λ _. ⊤ };

    ghost most = { 2 };

    ghost limited = { λ m _. mark_limit m };

    ghost read_back = { λ m _. mark_same m };

    fn encode(self) -> u64 {
        self as u64
    }

    #[tactic(auto, unfolding(crate::specs::Decoded::decode_mark))]
    fn decode(w: u64) -> Mark {
        match w {
            1 => Mark::Rising,
            2 => Mark::Falling,
            _ => Mark::Clear,
        }
    }
}

// The signal that two numbers mean.
#[tactic(auto, unfolding(crate::specs::Decoded::decode_signal))]
pub fn decode_signal(code: u64, w: u64) -> Signal
    ensures { result ≡ decode_signal code w }
{
    match code {
        1 => Signal::Value(word::decode_signed(w)),
        _ => Signal::Absent,
    }
}
