//! Which reports are asked for.

ghost use Rattle.std.specs.Prelude.{◌≡◌, ◌&&◌, is_none, not};
ghost use Rattle.cov_words.specs.SeenCommand.{seen_cover};
ghost use Rattle.cover_answer.specs.Reports as spec;
ghost use Rattle.cover_reporting.specs.Reporting.{options_for};

use cov_report::ReportOptions;
use cov_words::Cover;

// The least count of a line that isn't low, where none is given.
const LEAST_COUNT: u64 = 10;

/// How the reports are made.
pub(crate) fn report_options(asked: &Cover) -> ReportOptions
    ensures { result ≡ options_for (seen_cover asked.now) }
{
    ReportOptions {
        min: asked.annotate_min.unwrap_or(LEAST_COUNT),
        all: asked.annotate_all,
        points: asked.annotate_points,
        annotate: asked.annotate.is_some(),
    }
}

/// Whether the total line is printed.
pub(crate) fn prints_total(asked: &Cover) -> bool
    ensures { result ≡ spec.prints_total (seen_cover asked.now) }
{
    asked.annotate.is_some() || only_total(asked)
}

/// Whether nothing is asked for that is named by an option, `--annotate` aside.
fn only_total(asked: &Cover) -> bool
    ensures { result ≡ (is_none (seen_cover asked.now).write && is_none (seen_cover asked.now).write_info && not (seen_cover asked.now).rank) }
{
    asked.write.is_none() && asked.write_info.is_none() && !asked.rank
}

/// Whether lines of source files are looked at.
pub(crate) fn looks_at_lines(asked: &Cover) -> bool
    ensures { result ≡ spec.looks_at_lines (seen_cover asked.now) }
{
    prints_total(asked) || asked.write_info.is_some()
}
