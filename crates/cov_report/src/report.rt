ghost use Rattle.std.specs.Prelude.{◌≡◌, ◌<◌, [], None, length, get_or, option_map, IfOk, IfErr, OnOk};
ghost use Rattle.std.specs.FinMap.{entries};
ghost use Rattle.cov_dat.specs.DataText.{count_map};
ghost use Rattle.report_text.specs.Annotation.{annotated_text, short_source as short_of};
ghost use Rattle.report_text.specs.Faults.{prepare_fault, TellsFault};
ghost use Rattle.report_text.specs.Info.{info_text as info_of};
ghost use Rattle.report_text.specs.Totals.{total_text as total_of};
ghost use Rattle.report_text.specs.declared.report_fault.ReportFault.TheVariants.{ShortSource};
ghost use Rattle.cov_report.specs.Reports.{files_annotated, ordered, text_options};

use crate::annotating::annotate_file;
use crate::choosing::{Chosen, choose};
use crate::names::test_if_annotated;
use cov_dat::Merged;
use cov_port::{ByteText, NoMemory, Rows};
use report_lines::{info_text, total_text};
use report_table::tables;
use report_text::{FileTable, ReportFault, ReportOptions};
use std::alloc::Global;
use std::marker::Model;

/// What is reported of merged counts.
#[derive(Drop)]
pub struct Report<'a> {
    merged: &'a Merged,
    options: &'a ReportOptions,
    tables: Vec<FileTable<'a>>,
    names: Rows<ByteText>,
    places: Vec<usize>,
}

impl<'a> Model for Report<'a> {
    ghost use Rattle.cov_report.specs.Reports.{ReportValue, IsReportOf};

    ghost Value = { ReportValue };

    ghost view = { λ r. record { counts = r.merged.now; options = r.options.now } };

    ghost invariant = { λ r. IsReportOf (record { counts = r.merged.now; options = r.options.now }) r.tables.items r.names r.places.items };
}

impl<'a> Report<'a> {
    /// The report of these counts. Names of files are tested only where files are to be annotated.
    pub fn prepare(
        alloc: Global,
        merged: &'a Merged,
        options: &'a ReportOptions,
    ) -> Result<Report<'a>, ReportFault>
        ensures report { IfOk result (λ r. (r.counts ≡ merged.now) × (r.options ≡ options.now)) }
        ensures sound { OnOk result (prepare_fault options.now (entries (count_map merged.now)) ≡ None) }
        ensures fault { IfErr result (TellsFault (prepare_fault options.now (entries (count_map merged.now)))) }
    {
        let tables = tables(alloc, merged)?;
        let chosen = choose(alloc, tables.as_slice(), options)?;
        if let Err(fault) = test_if_annotated(alloc, chosen.names.as_slice(), options.annotate) {
            return Err(fault);
        }
        let Chosen { names, places } = chosen;
        Ok(Report {
            merged,
            options,
            tables,
            names,
            places,
        })
    }

    /// The files that are annotated, in byte order: those with a low line, or all, whether `annotate` is set or not.
    pub fn annotated_files(&self) -> &Rows<ByteText>
        ensures { result.now ≡ files_annotated self.now }
    {
        &self.names
    }

    /// The annotated source of the file with this number in the list of annotated files.
    ///
    /// `ShortSource` tells how many lines the source has, where it ends before a line that has items.
    pub fn annotate(&self, alloc: Global, file: u32, source: &[u8]) -> Result<ByteText, ReportFault>
        requires { file < length (files_annotated self.now) }
        ensures text { IfOk result (λ text. text ≡ annotated_text (text_options self.now) (ordered self.now) (get_or (files_annotated self.now) file [])
            source.now) }
        ensures long { OnOk result (short_of (ordered self.now) (get_or (files_annotated self.now) file []) source.now ≡ None) }
        ensures fault { IfErr result (TellsFault
            (option_map ShortSource (short_of (ordered self.now) (get_or (files_annotated self.now) file []) source.now))) }
    {
        let places = self.places.as_slice();
        let place = places[file as usize];
        annotate_file(alloc, self.tables.as_slice(), place, self.options, source)
    }

    /// The info file.
    pub fn info_text(&self, alloc: Global) -> Result<ByteText, NoMemory>
        ensures { IfOk result (λ text. text ≡ info_of (ordered self.now)) }
    {
        info_text(alloc, self.tables.as_slice())
    }

    /// The total line.
    pub fn total_text(&self, alloc: Global) -> Result<ByteText, NoMemory>
        ensures { IfOk result (λ text. text ≡ total_of self.now.options.min (ordered self.now)) }
    {
        total_text(alloc, self.tables.as_slice(), self.options.min)
    }
}
