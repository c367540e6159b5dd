// An answer with the change of the maximum, as numbers. An impl of From for a Cause or a Bound would have to stand in crate
// `reason_rules`, so these are functions.
ghost use Rattle.std.specs.Prelude.{◌≡◌};
ghost use Rattle.reason_rules.specs.Bounds.{bound_number};
ghost use Rattle.reason_rules.specs.Reasons.{cause_number};
ghost use Rattle.numbers.specs.Explanations.{change_cause, change_bound, explanation_numbers};

use crate::raw::{RawAnswer, RawExplanation};
use reason_rules::{Bound, Cause, Change};
use rules::answer::Refusal;

fn cause_number(cause: Cause) -> u64
    ensures { result ≡ cause_number cause }
{
    match cause {
        Cause::Increase => 1,
        Cause::Flash => 2,
        Cause::Threshold => 3,
        Cause::AgeOut => 4,
        Cause::Settings => 5,
    }
}

// The number of the settings' field.
fn bound_number(bound: Option<Bound>) -> u64
    ensures { result ≡ bound_number bound }
{
    match bound {
        None => 0,
        Some(Bound::Largest) => 5,
        Some(Bound::Smallest) => 6,
        Some(Bound::Increment) => 9,
        Some(Bound::Decrement) => 12,
    }
}

fn change_cause(change: Option<Change>) -> u64
    ensures { result ≡ change_cause change }
{
    match change {
        None => 0,
        Some(x) => cause_number(x.cause),
    }
}

fn change_bound(change: Option<Change>) -> u64
    ensures { result ≡ change_bound change }
{
    match change {
        None => 0,
        Some(x) => bound_number(x.bound),
    }
}

impl From<(Result<u64, Refusal>, Option<Change>)> for RawExplanation {
    ghost from_gives = { λ x w. w ≡ explanation_numbers x.0 x.1 };

    fn from((answer, change): (Result<u64, Refusal>, Option<Change>)) -> RawExplanation {
        let told = RawAnswer::from(answer);
        RawExplanation {
            number: told.number,
            field: told.field,
            orders: told.orders,
            cause: change_cause(change),
            bound: change_bound(change),
        }
    }
}
