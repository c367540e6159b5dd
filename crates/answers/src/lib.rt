// A refusal in the documents' numbering, which C has. An impl of From would have to stand in crate `rules`, so these are functions.
#![tactic(auto)]

ghost use Rattle.std.specs.Prelude.{◌≡◌};
ghost use Rattle.rules.specs.Answers.{refusal_number, refusal_field};

use rules::answer::Refusal;

pub fn refusal_number(x: Refusal) -> u64
    ensures { result ≡ refusal_number x }
{
    match x {
        Refusal::Table => 1,
        Refusal::OrderWords => 2,
        Refusal::Address => 3,
        Refusal::Size => 4,
        Refusal::Mode => 5,
        Refusal::Absent => 6,
        Refusal::Present => 7,
        Refusal::Held => 8,
        Refusal::Unheld => 9,
        Refusal::Pinned => 10,
        Refusal::Full => 11,
        Refusal::Setting(_) => 12,
        Refusal::List => 13,
        Refusal::Cut => 14,
        Refusal::Malformed => 15,
        Refusal::Number => 16,
    }
}

// The number of the lowest bad field, which comes with a bad setting only.
pub fn refusal_field(x: Refusal) -> u64
    ensures { result ≡ refusal_field x }
{
    match x {
        Refusal::Setting(field) => field,
        _ => 0,
    }
}
