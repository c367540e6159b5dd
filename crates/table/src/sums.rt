// Bytes over the rows.
ghost use Rattle.std.specs.Prelude.{◌≡◌};
ghost use Rattle.rules.specs.Rows.{held_bytes};
ghost use Rattle.layout.specs.Picture.{cache_in};
ghost use Rattle.table.specs.Asked.{GoodRows};

use layout::{HEADER, WIDTH};

// The sum of all sizes.
pub fn held_bytes(table: &[u64], rows: usize) -> u64
    requires { GoodRows table.now rows }
    ensures { result ≡ held_bytes (cache_in table.now).rows }
{
    let mut sum: u64 = 0;
    for i in 0..rows {
        sum += table[HEADER + i * WIDTH + 1];
    }
    sum
}
