// The whole part of a float, from the fields of its word. docs/WHOLE_PART.md draws them.
ghost use Rattle.std.specs.Prelude.{◌≡◌, to_bits};
ghost use Rattle.std.specs.Float.{binary64};
ghost use Rattle.fraction.specs.Whole.{whole_part, whole_of_word};

use crate::word::{SIGN, word_of};

// What one counts in the exponent's field. The leading digit, before the fraction's, counts as much.
const EXPONENT: u64 = 0x10_0000_0000_0000;

// The exponent's field of the numbers from 1 to below 2, of those from 2^64 to below 2^65, and of what is not finite.
const OF_ONE: u64 = 1023;

const TOO_LARGE: u64 = 1087;

const NOT_FINITE: u64 = 2047;

// The whole part of x by one shift: 0 where x is below 1 or no number, the largest u64 from 2^64 on. std's saturating_f64_to_u64 gives
// the same; the shift stays, since docs/WHOLE_PART.md explains it and the edits whole_shift, shift_one_short and leading_digit change it.
pub fn whole_part(x: f64) -> u64
    ensures value { result ≡ whole_of_word (to_bits binary64 x) }
    ensures whole { result ≡ whole_part x }
{
    let w = word_of(x);
    let exponent = w % SIGN / EXPONENT;
    let fraction = w % EXPONENT;
    // negative
    if SIGN <= w {
        return 0;
    }
    // from 0 to below 1
    if exponent < OF_ONE {
        return 0;
    }
    if exponent < TOO_LARGE {
        // all 53 digits at the word's left end, where the leading one counts 2^63; then one shift by the exponent
        return ((EXPONENT + fraction) * 2048) >> (1086 - exponent);
    }
    // no number
    if (exponent == NOT_FINITE) & (fraction != 0) {
        return 0;
    }
    u64::MAX
}
