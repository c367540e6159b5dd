// Operations on the words of a slice: a run of row numbers, and a part that is written whole.
//
//     run     a b c d           remove_at 1     a c d ONES
//                               insert_at 1 x   a x b c
//
// A shift takes the part from pos on and moves it by a constant, so that it compiles to one move of memory.
#![tactic(auto)]

ghost use Rattle.std.specs.Prelude.{◌≡◌, ◌++◌, ◌≤◌, ◌<◌, length, drop, replicate};
ghost use Rattle.words.specs.Runs.{removed, inserted};

// The word that names no row.
pub const ONES: u64 = u64::MAX;

// Takes the word at pos out of a run.
pub fn remove_at(run: &mut [u64], pos: usize)
    requires { pos < length run.old }
    ensures { run.new ≡ removed pos run.old }
{
    let part = &mut run[pos..];
    let last = part.len() - 1;
    part.copy_within(1.., 0);
    part[last] = ONES;
}

// Puts v into a run at pos.
pub fn insert_at(run: &mut [u64], pos: usize, v: u64)
    requires { pos < length run.old }
    ensures { run.new ≡ inserted pos v run.old }
{
    let part = &mut run[pos..];
    let last = part.len() - 1;
    part.copy_within(..last, 1);
    part[0] = v;
}

// Writes values over the first words of part.
pub fn copy_in(part: &mut [u64], values: &[u64])
    requires { length values.now ≤ length part.old }
    ensures { part.new ≡ values.now ++ drop (length values.now) part.old }
{
    part[..values.len()].copy_from_slice(values);
}

// Writes v over every word of part.
pub fn fill(part: &mut [u64], v: u64)
    ensures { part.new ≡ replicate (length part.old) v }
{
    part.fill(v);
}
