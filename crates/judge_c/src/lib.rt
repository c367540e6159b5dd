// Judging for C and Rust: a table is lent as its first word and its length.
#![tactic(auto)]

ghost use Rattle.std.specs.Prelude.{◌≡◌};
ghost use Rattle.judge.specs.Verdict.{judge_words};

// Whether the words picture an allowed cache.
#[unsafe(no_mangle)]
pub extern "C" fn judge_table(table: &[u64]) -> bool
    ensures { result ≡ judge_words table.now }
{
    judge::judge(table)
}
