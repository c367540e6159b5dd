// The report of the cache in a lent table.
ghost use Rattle.std.specs.Prelude.{◌≡◌};
ghost use Rattle.cache.specs.Tables.{report_words};

use judge::judge;
use reports::report_of;
use rules::answer::Refusal;
use rules::report::Report;

// The figures of the cache.
pub fn report(table: &[u64]) -> Result<Report, Refusal>
    ensures { result ≡ report_words table.now }
{
    if !judge(table) {
        return Err(Refusal::Table);
    }
    Ok(report_of(table))
}
