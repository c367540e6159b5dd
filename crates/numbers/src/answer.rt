// An answer as numbers.
ghost use Rattle.std.specs.Prelude.{◌≡◌};
ghost use Rattle.numbers.specs.Answers.{answer_numbers};

use crate::raw::RawAnswer;
use answers::{refusal_field, refusal_number};
use rules::answer::Refusal;

impl From<Result<u64, Refusal>> for RawAnswer {
    ghost from_gives = { λ a w. w ≡ answer_numbers a };

    fn from(a: Result<u64, Refusal>) -> RawAnswer {
        match a {
            Ok(orders) => RawAnswer {
                number: 0,
                field: 0,
                orders,
            },
            Err(x) => RawAnswer {
                number: refusal_number(x),
                field: refusal_field(x),
                orders: 0,
            },
        }
    }
}
