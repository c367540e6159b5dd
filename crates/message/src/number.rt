// The numbers of messages.
ghost use Rattle.std.specs.Prelude.{not, ◌||◌, ◌≡◌, eqb};
ghost use Rattle.rules.specs.Messages.{next_after};

// The number after one that is used: after the last one 0, none is left, as a word of the table and C have it.
pub fn next_after(number: u64) -> u64
    ensures { result ≡ next_after number }
{
    number.checked_add(1).unwrap_or(0)
}

// Whether a message's number is not the next, or none is left.
pub fn out_of_turn(next: u64, number: u64) -> bool
    ensures { result ≡ (eqb next 0 || not (eqb number next)) }
{
    (next == 0) | (number != next)
}
