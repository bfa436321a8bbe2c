ghost use Rattle.std.specs.Prelude.{◌≡◌, ◌<◌, ℕ, List, length, None, option_map, IfOk, IfErr, OnOk};
ghost use Rattle.cov_dat.specs.Merging.{Counts};
ghost use Rattle.report_text.specs.Annotation.{annotated_text, short_source as short_of};
ghost use Rattle.report_text.specs.Faults.{TellsFault};
ghost use Rattle.report_text.specs.Tables.{seen_table, seen_tables, table_of, tables_of};
ghost use Rattle.report_text.specs.declared.report_fault.ReportFault.TheVariants.{ShortSource};
ghost use Rattle.cov_report.specs.Reports.{options_of};
ghost use Rattle.cov_report.specs.Choosing.{StandsAt};

use cov_port::ByteText;
use report_lines::{annotated, short_source};
use report_text::{FileTable, ReportFault, ReportOptions};
use std::alloc::Global;

/// The annotated source of the file whose table stands at this place.
pub(crate) fn annotate_file(
    alloc: Global,
    tables: &[FileTable],
    place: usize,
    options: &ReportOptions,
    source: &[u8],
) -> Result<ByteText, ReportFault>
    requires { place < length tables.now }
    ensures text { (counts : Counts) (file : List ℕ) → seen_tables tables.now ≡ tables_of counts → StandsAt tables.now place file
        → IfOk result (λ text. text ≡ annotated_text (options_of options.now) counts file source.now) }
    ensures long { (counts : Counts) (file : List ℕ) → seen_tables tables.now ≡ tables_of counts → StandsAt tables.now place file
        → OnOk result (short_of counts file source.now ≡ None) }
    ensures fault { (counts : Counts) (file : List ℕ) → seen_tables tables.now ≡ tables_of counts → StandsAt tables.now place file
        → IfErr result (TellsFault (option_map ShortSource (short_of counts file source.now))) }
{
    annotate_table(alloc, &tables[place], options, source)
}

/// The annotated source of the file of this table.
fn annotate_table(
    alloc: Global,
    table: &FileTable,
    options: &ReportOptions,
    source: &[u8],
) -> Result<ByteText, ReportFault>
    ensures text { (counts : Counts) (file : List ℕ) → seen_table table.now ≡ table_of counts file
        → IfOk result (λ text. text ≡ annotated_text (options_of options.now) counts file source.now) }
    ensures long { (counts : Counts) (file : List ℕ) → seen_table table.now ≡ table_of counts file → OnOk result (short_of counts file source.now ≡ None) }
    ensures fault { (counts : Counts) (file : List ℕ) → seen_table table.now ≡ table_of counts file
        → IfErr result (TellsFault (option_map ShortSource (short_of counts file source.now))) }
{
    if let Some(lines) = short_source(table, source) {
        return Err(ReportFault::ShortSource { lines });
    }
    match annotated(alloc, table, options.min, options.points, source) {
        Ok(text) => Ok(text),
        Err(_) => Err(ReportFault::NoMemory),
    }
}
