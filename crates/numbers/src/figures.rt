// The figures of a report as numbers.
ghost use Rattle.std.specs.Prelude.{◌≡◌};
ghost use Rattle.numbers.specs.Answers.{no_report, figures_with, figure_numbers};

use crate::raw::RawFigures;
use answers::refusal_number;
use rules::answer::Refusal;
use rules::report::Report;
use settings_words::flag_word;

// The figures of a report that is refused.
fn no_report() -> Report
    ensures { result ≡ no_report }
{
    Report {
        held: 0,
        dirty: 0,
        entries: 0,
        maximum: 0,
        clean: 0,
        missing: 0,
        count: 0,
        due: false,
        next: 0,
        totals: [0u64; 11],
    }
}

fn figures_with(number: u64, report: Report) -> RawFigures
    ensures { result ≡ figures_with number report }
{
    let totals = report.totals;
    RawFigures {
        number,
        held: report.held,
        dirty: report.dirty,
        entries: report.entries,
        maximum: report.maximum,
        clean: report.clean,
        missing: report.missing,
        count: report.count,
        due: flag_word(report.due),
        next: report.next,
        totals,
    }
}

impl From<Result<Report, Refusal>> for RawFigures {
    ghost from_gives = { λ told w. w ≡ figure_numbers told };

    fn from(told: Result<Report, Refusal>) -> RawFigures {
        match told {
            Ok(report) => figures_with(0, report),
            Err(refusal) => figures_with(refusal_number(refusal), no_report()),
        }
    }
}
