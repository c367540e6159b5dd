// A verdict as numbers.
ghost use Rattle.std.specs.Prelude.{◌≡◌};
ghost use Rattle.numbers.specs.Answers.{verdict_numbers};

use crate::raw::RawVerdict;
use answers::{refusal_field, refusal_number};
use rules::answer::Refusal;

impl From<Result<(), Refusal>> for RawVerdict {
    ghost from_gives = { λ v w. w ≡ verdict_numbers v };

    fn from(v: Result<(), Refusal>) -> RawVerdict {
        match v {
            Ok(()) => RawVerdict {
                number: 0,
                field: 0,
            },
            Err(x) => RawVerdict {
                number: refusal_number(x),
                field: refusal_field(x),
            },
        }
    }
}
