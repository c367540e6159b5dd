// A run of n words: row numbers, then all ones.
ghost use Rattle.std.specs.Prelude.{◌≡◌, ◌+◌, ◌<◌, ◌≤◌, length};
ghost use Rattle.layout.specs.Leaves.{run_cut, run_put};

// Takes the word at pos out of the run of n words at `at`.
pub fn run_cut(table: &mut [u64], at: usize, n: usize, pos: usize)
    requires { (pos < n) × (at + n ≤ length table.old) }
    ensures { table.new ≡ run_cut at n pos table.old }
{
    words::remove_at(&mut table[at..at + n], pos);
}

// Puts v into the run of n words at `at`, whose last word falls out.
pub fn run_put(table: &mut [u64], at: usize, n: usize, pos: usize, v: u64)
    requires { (pos < n) × (at + n ≤ length table.old) }
    ensures { table.new ≡ run_put at n pos v table.old }
{
    words::insert_at(&mut table[at..at + n], pos, v);
}
