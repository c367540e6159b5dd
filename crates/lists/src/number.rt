// The number of a list that is sent.
ghost use Rattle.rules.specs.Requests.{numbered};
ghost use Rattle.layout.specs.Holds.{Holds, Good};
ghost use Rattle.layout.specs.Picture.{cache_in, rest_in};

use entries::is_lead;
use message::number::next_after;
use table::header::{mode, next_number, set_next};

// A lead's list uses up its number.
pub fn use_number(table: &mut [u64])
    requires { Good table.old }
    ensures { Holds table.new (numbered (cache_in table.old)) (rest_in table.old) }
{
    if is_lead(mode(table)) {
        let next = next_number(table);
        set_next(table, next_after(next));
    }
}
