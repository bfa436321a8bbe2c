ghost use Rattle.std.specs.Prelude.{◌≡◌, ◌<◌, ℕ, [], length, map, filter, get_or, IfOk};
ghost use Rattle.report_text.specs.Tables.{seen_table, seen_tables};
ghost use Rattle.cov_report.specs.Choosing.{has_low, is_chosen, StandsAt};

use cov_port::{ByteText, NoMemory, Rows};
use report_text::{CountedLine, FileTable, ReportOptions};
use std::alloc::Global;

/// The names of the annotated files, and the place of the table of each.
#[derive(Drop)]
pub(crate) struct Chosen {
    pub(crate) names: Rows<ByteText>,
    pub(crate) places: Vec<usize>,
}

pub(crate) fn choose(
    alloc: Global,
    tables: &[FileTable],
    options: &ReportOptions,
) -> Result<Chosen, NoMemory>
    ensures names { IfOk result (λ chosen. chosen.names ≡ map (λ t. t.name) (filter (is_chosen options.now.all options.now.min) (seen_tables tables.now))) }
    ensures places { IfOk result (λ chosen. (i : ℕ) → i < length chosen.names → StandsAt tables.now (get_or chosen.places.items i 0)
        (get_or chosen.names i [])) }
    ensures len { IfOk result (λ chosen. length chosen.places.items ≡ length chosen.names) }
{
    let mut names = Rows::new(alloc);
    let mut places = Vec::new(alloc);
    'tables: for place in 0..tables.len() {
        let table = &tables[place];
        if !is_chosen(table, options) {
            continue;
        }
        names.push(ByteText::from_slice(alloc, table.name)?)?;
        places.push(place)?;
    }
    Ok(Chosen { names, places })
}

fn is_chosen(table: &FileTable, options: &ReportOptions) -> bool
    ensures { result ≡ is_chosen options.now.all options.now.min (seen_table table.now) }
{
    options.all || has_low(table.lines.as_slice(), options.min)
}

/// Whether a line is below the minimum.
fn has_low(lines: &[CountedLine], minimum: u64) -> bool
    ensures { result ≡ has_low minimum lines.now }
{
    'lines: for line in lines {
        if line.count < minimum {
            return true;
        }
    }
    false
}
