// Take's tests, in the order of judging. The rows that they note go into an array that is lent: there is no heap for a list.
ghost use Rattle.std.specs.Prelude.{List, ◌≡◌, ℕ, length};
ghost use Rattle.rules.specs.declared.request.Request.TheVariants.{Take};
ghost use Rattle.rules.specs.Limits.{most_rows};
ghost use Rattle.rules.specs.Refusals.{tests};
ghost use Rattle.layout.specs.Picture.{cache_in};
ghost use Rattle.table.specs.Asked.{GoodRows};
ghost use Rattle.verdicts.specs.Tells.{Tells};
ghost use Rattle.table_tests.specs.Noted.{Right, TestedRight, TestedAs};

use entries::is_standby;
use message::number::out_of_turn;
use message::read::{BadMessage, read_message};
use rules::answer::Refusal;
use table::header::{mode, next_number};
use taken_list::{MOST_ROWS, bad_list};

// The tests of a right message, from its number on; where none passes, how many addresses it has, whose rows are noted.
fn test_right(
    table: &[u64],
    rows: usize,
    number: u64,
    count: u64,
    ones: bool,
    list: &[u64],
    named: &mut [u16; MOST_ROWS],
) -> Result<usize, Refusal>
    requires { GoodRows table.now rows × (length list.now ≡ most_rows) × (length named.old ≡ most_rows) }
    ensures { (l : List ℕ) → Right l list.now count ones → TestedRight (cache_in table.now) number l named.new result }
{
    if out_of_turn(next_number(table), number) {
        return Err(Refusal::Number);
    }
    if ones {
        return Err(Refusal::Address);
    }
    if (MOST_ROWS as u64) < count {
        return Err(Refusal::List);
    }
    let count = count as usize;
    if bad_list(table, rows, &list[0..count], named) {
        return Err(Refusal::List);
    }
    Ok(count)
}

// All tests; where none passes, how many addresses the message has, whose rows are noted.
pub fn take_noting(
    table: &[u64],
    rows: usize,
    message: &[u8],
    named: &mut [u16; MOST_ROWS],
) -> Result<usize, Refusal>
    requires { GoodRows table.now rows × (length named.old ≡ most_rows) }
    ensures { TestedAs (cache_in table.now) message.now named.new result }
{
    let mut list = [0u64; MOST_ROWS];
    if !is_standby(mode(table)) {
        return Err(Refusal::Mode);
    }
    match read_message(message, &mut list) {
        Ok(read) => test_right(
            table,
            rows,
            read.number,
            read.count,
            read.ones,
            &list[..],
            named,
        ),
        Err(BadMessage::Cut) => Err(Refusal::Cut),
        Err(BadMessage::Malformed) => Err(Refusal::Malformed),
    }
}

// The same where only the verdict is asked for.
pub fn take(table: &[u64], rows: usize, message: &[u8]) -> Result<(), Refusal>
    requires { GoodRows table.now rows }
    ensures { (lent : ℕ) → Tells result (tests (cache_in table.now) lent message.now Take) }
{
    let mut named = [0u16; MOST_ROWS];
    take_noting(table, rows, message, &mut named)?;
    Ok(())
}
