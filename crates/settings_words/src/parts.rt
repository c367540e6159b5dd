// The words of a flag, of a cap and of each rule, and the cap or rule of its words. A kind that
// stands for nothing is read as the last kind.
//
// A kind is a number here because a stored table holds it: specs/Words.antt fixes each number.
// An impl of From for a rule would have to stand in crate `settings`, so these are functions.
ghost use Rattle.std.specs.Prelude.{◌≡◌};
ghost use Rattle.settings_words.specs.Words.{flag_word, cap_words, increase_words, flash_words, decrease_words};
ghost use Rattle.settings_words.specs.Picture.{cap_of, increase_of, flash_of, decrease_of};
ghost use Rattle.settings_words.specs.FloatsFit.{IncreaseFits, FlashFits, DecreaseFits};

use fraction::{float_of, word_of};
use settings::{Decrease, Flash, Increase};

pub fn flag_word(b: bool) -> u64
    ensures { result ≡ flag_word b }
{
    u64::from(b)
}

pub fn cap_words(c: Option<u64>) -> [u64; 2]
    ensures { result ≡ cap_words c }
{
    match c {
        None => [0, 0],
        Some(bytes) => [1, bytes],
    }
}

pub fn cap_of(kind: u64, bytes: u64) -> Option<u64>
    ensures { result ≡ cap_of kind bytes }
{
    if kind == 0 {
        return None;
    }
    Some(bytes)
}

pub fn increase_words(i: Increase) -> [u64; 3]
    ensures value { result ≡ increase_words i }
    ensures increase_fits { IncreaseFits i }
{
    match i {
        Increase::Off => [0, 0, 0],
        Increase::Threshold { lower, multiplier } => [1, word_of(lower), word_of(multiplier)],
    }
}

pub fn increase_of(kind: u64, lower: u64, multiplier: u64) -> Increase
    ensures { result ≡ increase_of kind lower multiplier }
{
    match kind {
        0 => Increase::Off,
        _ => Increase::Threshold {
            lower: float_of(lower),
            multiplier: float_of(multiplier),
        },
    }
}

pub fn flash_words(f: Flash) -> [u64; 3]
    ensures value { result ≡ flash_words f }
    ensures flash_fits { FlashFits f }
{
    match f {
        Flash::Off => [0, 0, 0],
        Flash::On {
            multiple,
            threshold,
        } => [1, word_of(multiple), word_of(threshold)],
    }
}

pub fn flash_of(kind: u64, multiple: u64, threshold: u64) -> Flash
    ensures { result ≡ flash_of kind multiple threshold }
{
    match kind {
        0 => Flash::Off,
        _ => Flash::On {
            multiple: float_of(multiple),
            threshold: float_of(threshold),
        },
    }
}

pub fn decrease_words(d: Decrease) -> [u64; 4]
    ensures value { result ≡ decrease_words d }
    ensures decrease_fits { DecreaseFits d }
{
    match d {
        Decrease::Off => [0, 0, 0, 0],
        Decrease::Threshold { upper, multiplier } => [1, word_of(upper), 0, word_of(multiplier)],
        Decrease::AgeOut { epochs, reserve } => [2, 0, epochs, word_of(reserve)],
        Decrease::AgeOutWithThreshold {
            upper,
            epochs,
            reserve,
        } => [3, word_of(upper), epochs, word_of(reserve)],
    }
}

// The last word is the multiplier's or the reserve's.
pub fn decrease_of(kind: u64, upper: u64, epochs: u64, last: u64) -> Decrease
    ensures { result ≡ decrease_of kind upper epochs last }
{
    match kind {
        0 => Decrease::Off,
        1 => Decrease::Threshold {
            upper: float_of(upper),
            multiplier: float_of(last),
        },
        2 => Decrease::AgeOut {
            epochs,
            reserve: float_of(last),
        },
        _ => Decrease::AgeOutWithThreshold {
            upper: float_of(upper),
            epochs,
            reserve: float_of(last),
        },
    }
}
