// Take.
ghost use Rattle.std.specs.Prelude.{List, ◌≡◌, ℕ, ◌<◌, length};
ghost use Rattle.rules.specs.declared.request.Request.TheVariants.{Take};
ghost use Rattle.rules.specs.Cache.{with_next};
ghost use Rattle.rules.specs.Hosts.{asking};
ghost use Rattle.rules.specs.Messages.{next_after, read_message, addresses_in};
ghost use Rattle.rules.specs.Requests.{clean_each, step};
ghost use Rattle.layout.specs.Picture.{cache_in, rest_in};
ghost use Rattle.layout.specs.Holds.{Holds, Good};
ghost use Rattle.room.specs.Answered.{Answered};
ghost use Rattle.table.specs.Asked.{GoodRows, RowOf};
ghost use Rattle.table_tests.specs.Noted.{Noted};
ghost use Rattle.lists.specs.Taken.{taken};

use layout::{HEADER, WIDTH};
use message::number::next_after;
use rules::answer::Refusal;
use table::changes::clean_row;
use table::header::{next_number, row_count, set_count, set_next};
use table_tests::take::take_noting;
use taken_list::MOST_ROWS;

// The address of the entry in a row.
fn row_address(table: &[u64], rows: usize, row: usize) -> u64
    requires { GoodRows table.now rows × (row < rows) }
    ensures { (a : ℕ) → RowOf (cache_in table.now).rows a row → result ≡ a }
{
    table[HEADER + row * WIDTH]
}

// The entries in the rows noted for the message's addresses are clean.
fn clean_each(table: &mut [u64], rows: usize, message: &[u8], named: &[u16])
    requires { GoodRows table.old rows × Noted (cache_in table.old) (addresses_in (read_message message.now)) named.now (length named.now) }
    ensures { Holds table.new (taken (addresses_in (read_message message.now)) (cache_in table.old)) (rest_in table.old) }
{
    for noted in named {
        let row = usize::from(*noted);
        let address = row_address(table, rows, row);
        clean_row(table, rows, row, address);
    }
}

// The work of a take whose rows are noted: their entries are clean, the byte count is 0, and the number is used up.
fn take_list(table: &mut [u64], rows: usize, message: &[u8], named: &[u16])
    requires { GoodRows table.old rows × Noted (cache_in table.old) (addresses_in (read_message message.now)) named.now (length named.now) }
    ensures { Holds table.new (with_next (next_after (cache_in table.old).next) (clean_each (addresses_in (read_message message.now)) (cache_in table.old))) (rest_in table.old) }
{
    clean_each(table, rows, message, named);
    set_count(table, 0);
    let next = next_number(table);
    set_next(table, next_after(next));
}

// The tests, and the work in the rows that they noted. No order words are lent for it.
pub fn take(table: &mut [u64], message: &[u8]) -> Result<u64, Refusal>
    requires { Good table.old }
    ensures { (lent : List ℕ) → Answered (step (cache_in table.old) (asking Take message.now (length lent))) (rest_in table.old) table.new lent lent result }
{
    let rows = row_count(table);
    let mut named = [0u16; MOST_ROWS];
    let count = take_noting(table, rows, message, &mut named)?;
    take_list(table, rows, message, &named[..count]);
    Ok(0)
}
