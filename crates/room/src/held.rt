// Held bytes, which the caller may know.
ghost use Rattle.std.specs.Prelude.{◌≡◌};
ghost use Rattle.rules.specs.Rows.{held_bytes};
ghost use Rattle.layout.specs.Picture.{cache_in};
ghost use Rattle.table.specs.Asked.{GoodRows};
ghost use Rattle.room.specs.Held.{HeldIs};

use table::sums::held_bytes;

// The held bytes; where the caller does not know them they are summed.
pub fn held_now(table: &[u64], rows: usize, held: Option<u64>) -> u64
    requires { GoodRows table.now rows × HeldIs held (cache_in table.now) }
    ensures { result ≡ held_bytes (cache_in table.now).rows }
{
    match held {
        Some(bytes) => bytes,
        None => held_bytes(table, rows),
    }
}
