// The settings as 21 words of a table:
//
//     0       evictions: 1 on, 0 off
//     1       whether the initial size is set: 1 or 0
//     2       initial size
//     3       minimum clean fraction
//     4, 5    maximum size, minimum size
//     6       epoch length
//     7..9    increase rule: 0 off, 1 threshold; lower rate, multiplier
//     10, 11  cap on one increase: 0 none, 1 up to; bytes
//     12..14  flash rule: 0 off, 1 on; multiple, threshold
//     15..18  decrease rule: 0 off, 1 threshold, 2 age-out, 3 age-out with threshold; upper rate,
//             epochs, multiplier or reserve
//     19, 20  cap on one decrease, like 10 and 11
//
// A fraction is stored as the word of its float. The word of an absent particular is 0, so settings
// have one picture. The functions work at the start of the part of a table that they are lent.
#![tactic(auto)]

ghost use Rattle.std.specs.Prelude.{◌≡◌, ◌++◌, ◌≤◌, length, drop};
ghost use Rattle.settings_words.specs.Words.{settings_words};
ghost use Rattle.settings_words.specs.FloatsFit.{FloatsFit};
ghost use Rattle.settings_words.specs.Picture.{settings_of, picture};

mod parts;

use fraction::{float_of, word_of};
pub use parts::flag_word;
use parts::{
    cap_of, cap_words, decrease_of, decrease_words, flash_of, flash_words, increase_of,
    increase_words,
};
use settings::{Settings, first_bad_field};

// The words of s.
pub fn words_of(s: Settings) -> [u64; 21]
    ensures value { result ≡ settings_words s }
    ensures floats_fit { FloatsFit s }
{
    let [increase, lower, multiplier] = increase_words(s.increase);
    let [increment, increment_bytes] = cap_words(s.increment);
    let [flash, multiple, threshold] = flash_words(s.flash);
    let [decrease, upper, epochs, last] = decrease_words(s.decrease);
    let [decrement, decrement_bytes] = cap_words(s.decrement);
    [
        flag_word(s.evictions),
        flag_word(s.preset),
        s.initial,
        word_of(s.clean),
        s.largest,
        s.smallest,
        s.epoch,
        increase,
        lower,
        multiplier,
        increment,
        increment_bytes,
        flash,
        multiple,
        threshold,
        decrease,
        upper,
        epochs,
        last,
        decrement,
        decrement_bytes,
    ]
}

// The settings of the first 21 words. Words that are no picture give settings with other words.
#[tactic(auto, unfolding(crate::specs::Picture::settings_of))]
pub fn settings_of(w: &[u64]) -> Settings
    requires { 21 ≤ length w.now }
    ensures { result ≡ settings_of w.now }
{
    Settings {
        evictions: w[0] != 0,
        preset: w[1] != 0,
        initial: w[2],
        clean: float_of(w[3]),
        largest: w[4],
        smallest: w[5],
        epoch: w[6],
        increase: increase_of(w[7], w[8], w[9]),
        increment: cap_of(w[10], w[11]),
        flash: flash_of(w[12], w[13], w[14]),
        decrease: decrease_of(w[15], w[16], w[17], w[18]),
        decrement: cap_of(w[19], w[20]),
    }
}

// Whether the first 21 words are the words of settings that configuring passes.
#[tactic(auto, unfolding(crate::specs::Picture::picture))]
pub fn is_picture(w: &[u64]) -> bool
    requires { 21 ≤ length w.now }
    ensures { result ≡ picture w.now }
{
    let s = settings_of(w);
    let own = words_of(s);
    first_bad_field(s, false) == 0 && w.starts_with(&own)
}

// Writes the words of s over the first 21.
pub fn store(t: &mut [u64], s: Settings)
    requires { 21 ≤ length t.old }
    ensures words_after { t.new ≡ settings_words s ++ drop 21 t.old }
    ensures floats_fit { FloatsFit s }
{
    let own = words_of(s);
    t[..own.len()].copy_from_slice(&own);
}
