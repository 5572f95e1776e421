// Signed numbers as words, in two's complement of 64 bits. The contracts cite `specs/Words.antt`.
ghost use Rattle.std.specs.Prelude.{◌≡◌};
ghost use Rattle.words_codec.specs.Words.{encode_signed, decode_signed};

// A signed number as a word, in two's complement.
#[tactic(auto, using(crate::proofs::Signed::encode_cast))]
pub fn encode_signed(v: i64) -> u64
    ensures { result ≡ encode_signed v }
{
    v.cast_unsigned()
}

// The signed number of a word, in two's complement.
#[tactic(auto, using(crate::proofs::Signed::decode_cast))]
pub fn decode_signed(w: u64) -> i64
    ensures { result ≡ decode_signed w }
{
    w.cast_signed()
}
