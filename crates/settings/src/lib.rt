// The mode of a cache, and its settings: twelve fields, their default values and their validation.
//
// A field's number is its place in the list of document 01, from 1 to 12.
#![tactic(auto)]

ghost use Rattle.std.specs.Prelude.{◌≡◌};
ghost use Rattle.settings.specs.Defaults.{default_clean, defaults};

mod ranges;
mod validation;

pub use validation::{decreases, first_bad_field, increases};

// What part a cache plays; fixed at opening.
#[derive(Clone, Copy, PartialEq, Eq)]
pub enum Mode {
    Alone,
    Lead,
    Standby,
}

// The increase rule. Off is one of its kinds, as of Decrease's four; no Option, so that all three rules read alike.
#[derive(Clone, Copy)]
pub enum Increase {
    Off,
    // The hit rate below which the maximum rises, and what it is multiplied by.
    Threshold { lower: f64, multiplier: f64 },
}

// The flash rule. Off is a kind of it too.
#[derive(Clone, Copy)]
pub enum Flash {
    Off,
    // What a size is multiplied by, and the share of the maximum that it has to exceed.
    On { multiple: f64, threshold: f64 },
}

// The decrease rule. The upper rate is the hit rate above which the maximum falls, the epochs are
// the idle count from which an entry is evicted, and the reserve is the share that is kept empty.
#[derive(Clone, Copy)]
pub enum Decrease {
    Off,
    Threshold {
        upper: f64,
        multiplier: f64,
    },
    AgeOut {
        epochs: u64,
        reserve: f64,
    },
    AgeOutWithThreshold {
        upper: f64,
        epochs: u64,
        reserve: f64,
    },
}

#[derive(Clone, Copy)]
pub struct Settings {
    // 1: evictions
    pub evictions: bool,
    // 2: whether the initial size is set; 3 stands also where it is not, since its stored word does
    pub preset: bool,
    // 3: initial size, in bytes
    pub initial: u64,
    // 4: minimum clean fraction
    pub clean: f64,
    // 5: maximum size, in bytes
    pub largest: u64,
    // 6: minimum size, in bytes
    pub smallest: u64,
    // 7: epoch length, in accesses
    pub epoch: u64,
    // 8: increase rule
    pub increase: Increase,
    // 9: cap on one increase, in bytes
    pub increment: Option<u64>,
    // 10: flash rule
    pub flash: Flash,
    // 11: decrease rule
    pub decrease: Decrease,
    // 12: cap on one decrease, in bytes
    pub decrement: Option<u64>,
}

// The default minimum clean fraction of a mode.
#[tactic(auto, using(crate::proofs::Clean::of_alone, crate::proofs::Clean::of_lead, crate::proofs::Clean::of_standby, crate::proofs::Clean::of_either))]
fn default_clean(mode: Mode) -> f64
    ensures { result ≡ default_clean mode }
{
    match mode {
        Mode::Alone => Settings::CLEAN_ALONE,
        Mode::Lead | Mode::Standby => Settings::CLEAN,
    }
}

// The default settings, by mode.
impl Settings {
    pub const INITIAL: u64 = 2097152;

    // In a lead and a standby.
    pub const CLEAN: f64 = 0.3;

    // Alone.
    pub const CLEAN_ALONE: f64 = 0.01;

    pub const LARGEST: u64 = 33554432;

    pub const SMALLEST: u64 = 1048576;

    pub const EPOCH: u64 = 50000;

    pub const LOWER: f64 = 0.9;

    pub const UPPER: f64 = 0.999;

    pub const MULTIPLIER: f64 = 2.0;

    pub const INCREMENT: u64 = 4194304;

    pub const DECREMENT: u64 = 1048576;

    pub const MULTIPLE: f64 = 1.0;

    pub const THRESHOLD: f64 = 0.25;

    pub const EPOCHS: u64 = 3;

    pub const RESERVE: f64 = 0.1;

    pub fn defaults(mode: Mode) -> Settings
        ensures { result ≡ defaults mode }
    {
        Settings {
            evictions: true,
            preset: true,
            initial: Settings::INITIAL,
            clean: default_clean(mode),
            largest: Settings::LARGEST,
            smallest: Settings::SMALLEST,
            epoch: Settings::EPOCH,
            increase: Increase::Threshold {
                lower: Settings::LOWER,
                multiplier: Settings::MULTIPLIER,
            },
            increment: Some(Settings::INCREMENT),
            flash: Flash::On {
                multiple: Settings::MULTIPLE,
                threshold: Settings::THRESHOLD,
            },
            decrease: Decrease::AgeOutWithThreshold {
                upper: Settings::UPPER,
                epochs: Settings::EPOCHS,
                reserve: Settings::RESERVE,
            },
            decrement: Some(Settings::DECREMENT),
        }
    }
}
