// The settings that numbers stand for. Words that a kind does not name are not read. An unknown kind
// is read as a rule that is on and out of its range, or as a cap above its limit: a bad field.
ghost use Rattle.std.specs.Prelude.{◌≡◌};
ghost use Rattle.numbers.specs.Meanings.{increase_of_raw, cap_of_raw, flash_of_raw, decrease_of_raw, settings_of_raw};

use crate::raw::{RawCap, RawDecrease, RawFlash, RawIncrease, RawSettings};
use settings::{Decrease, Flash, Increase, Settings};

// Bytes that no cap may have.
const ABOVE_LIMIT: u64 = u64::MAX;

impl From<RawIncrease> for Increase {
    ghost from_gives = { λ w x. x ≡ increase_of_raw w };

    #[tactic(auto, using(crate::proofs::Listed::zero_bits), unfolding(crate::specs::Meanings::increase_of_raw, crate::specs::Meanings::meaning))]
    fn from(w: RawIncrease) -> Increase {
        match w.kind {
            0 => Increase::Off,
            1 => Increase::Threshold {
                lower: w.lower,
                multiplier: w.multiplier,
            },
            _ => Increase::Threshold {
                lower: 0.0,
                multiplier: 0.0,
            },
        }
    }
}

impl From<RawCap> for Option<u64> {
    ghost from_gives = { λ w x. x ≡ cap_of_raw w };

    #[tactic(auto, unfolding(crate::specs::Meanings::cap_of_raw, crate::specs::Meanings::meaning))]
    fn from(w: RawCap) -> Option<u64> {
        match w.kind {
            0 => None,
            1 => Some(w.bytes),
            _ => Some(ABOVE_LIMIT),
        }
    }
}

impl From<RawFlash> for Flash {
    ghost from_gives = { λ w x. x ≡ flash_of_raw w };

    #[tactic(auto, using(crate::proofs::Listed::zero_bits), unfolding(crate::specs::Meanings::flash_of_raw, crate::specs::Meanings::meaning))]
    fn from(w: RawFlash) -> Flash {
        match w.kind {
            0 => Flash::Off,
            1 => Flash::On {
                multiple: w.multiple,
                threshold: w.threshold,
            },
            _ => Flash::On {
                multiple: 0.0,
                threshold: 0.0,
            },
        }
    }
}

impl From<RawDecrease> for Decrease {
    ghost from_gives = { λ w x. x ≡ decrease_of_raw w };

    #[tactic(auto, using(crate::proofs::Listed::zero_bits), unfolding(crate::specs::Meanings::decrease_of_raw, crate::specs::Meanings::meaning))]
    fn from(w: RawDecrease) -> Decrease {
        match w.kind {
            0 => Decrease::Off,
            1 => Decrease::Threshold {
                upper: w.upper,
                multiplier: w.multiplier,
            },
            2 => Decrease::AgeOut {
                epochs: w.epochs,
                reserve: w.reserve,
            },
            3 => Decrease::AgeOutWithThreshold {
                upper: w.upper,
                epochs: w.epochs,
                reserve: w.reserve,
            },
            _ => Decrease::AgeOut {
                epochs: 0,
                reserve: 0.0,
            },
        }
    }
}

impl From<RawSettings> for Settings {
    ghost from_gives = { λ w x. x ≡ settings_of_raw w };

    #[tactic(auto, unfolding(crate::specs::Meanings::settings_of_raw))]
    fn from(w: RawSettings) -> Settings {
        Settings {
            evictions: w.evictions != 0,
            preset: w.preset != 0,
            initial: w.initial,
            clean: w.clean,
            largest: w.largest,
            smallest: w.smallest,
            epoch: w.epoch,
            increase: w.increase.into(),
            increment: w.increment.into(),
            flash: w.flash.into(),
            decrease: w.decrease.into(),
            decrement: w.decrement.into(),
        }
    }
}
