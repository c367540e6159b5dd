// What one word says.
//
// A kind is a number here because a stored table holds it, or an order word, which C reads: specs/Layout.antt fixes each number. An impl of From for
// a Hold, a Mode or a Kind would have to stand in crate `rules` or `settings`, so these are functions.
ghost use Rattle.std.specs.Prelude.{◌≡◌};
ghost use Rattle.layout.specs.Layout.{mode_word, mode_of, hold_word, hold_of, kind_word};

use rules::entry::Hold;
use rules::order::Kind;
use settings::Mode;

// The word of a writer's hold; below it stands the number of readers.
const WRITER: u64 = 65536;

pub fn hold_word(h: Hold) -> u64
    ensures { result ≡ hold_word h }
{
    match h {
        Hold::Unheld => 0,
        Hold::Readers(n) => n,
        Hold::Writer => WRITER,
    }
}

pub fn hold_of(w: u64) -> Hold
    ensures { result ≡ hold_of w }
{
    match w {
        0 => Hold::Unheld,
        WRITER => Hold::Writer,
        _ => Hold::Readers(w),
    }
}

pub fn mode_word(m: Mode) -> u64
    ensures { result ≡ mode_word m }
{
    match m {
        Mode::Alone => 0,
        Mode::Lead => 1,
        Mode::Standby => 2,
    }
}

pub fn mode_of(w: u64) -> Mode
    ensures { result ≡ mode_of w }
{
    match w {
        0 => Mode::Alone,
        1 => Mode::Lead,
        _ => Mode::Standby,
    }
}

pub fn kind_word(k: Kind) -> u64
    ensures { result ≡ kind_word k }
{
    match k {
        Kind::Write => 1,
        Kind::Evict => 2,
        Kind::Load => 3,
    }
}
