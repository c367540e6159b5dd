// A float's word: its sign, 11 bits of exponent and 52 of fraction. What is no number has one word.
ghost use Rattle.std.specs.Prelude.{◌≡◌, T, from_bits, to_bits};
ghost use Rattle.std.specs.Float.{binary64};
ghost use Rattle.std.specs.Float.Ieee.{fits};

// The word of infinity. With the sign off, the words above it stand for no number.
pub const INFINITY: u64 = 0x7ff0_0000_0000_0000;

// The word of what is no number.
const NO_NUMBER: u64 = 0x7ff8_0000_0000_0000;

// The sign's bit.
pub const SIGN: u64 = 0x8000_0000_0000_0000;

// The word of a float. A float of a program is one that the format holds.
pub fn word_of(x: f64) -> u64
    ensures value { result ≡ to_bits binary64 x }
    ensures fits { T (fits binary64 x) }
{
    if x.is_nan() {
        return NO_NUMBER;
    }
    x.to_bits()
}

// The float of a word.
pub fn float_of(w: u64) -> f64
    ensures { result ≡ from_bits binary64 w }
{
    if w % SIGN <= INFINITY {
        return f64::from_bits(w);
    }
    f64::NAN
}
