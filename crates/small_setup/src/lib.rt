// The small setup, and the words that are lent for it.
#![tactic(auto)]

ghost use Rattle.std.specs.Prelude.{◌≡◌};
ghost use Rattle.rules.specs.Cases.{small, small_with};
ghost use Rattle.settings.specs.declared.Flash.TheVariants as flash;

use settings::{Decrease, Flash, Increase, Settings};

pub const ROWS: u64 = 4;

// 128 words, and 32 for each row.
pub const TABLE_WORDS: usize = 256;

pub type Table = [u64; TABLE_WORDS];

// 3 for each of 2 x 4 + 1 orders.
pub const ORDER_WORDS: usize = 27;

pub type Orders = [u64; ORDER_WORDS];

// The small setup with an increase and a decrease rule.
pub fn small_with(increase: Increase, decrease: Decrease) -> Settings
    ensures { result ≡ small_with increase flash.Off decrease }
{
    Settings {
        evictions: true,
        preset: true,
        initial: 4096,
        clean: 0.0,
        largest: 16384,
        smallest: 1024,
        epoch: 100,
        increase,
        increment: None,
        flash: Flash::Off,
        decrease,
        decrement: None,
    }
}

// No resize rules.
pub fn small() -> Settings
    ensures { result ≡ small }
{
    small_with(Increase::Off, Decrease::Off)
}
