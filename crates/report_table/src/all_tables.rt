ghost use Rattle.std.specs.Prelude.{◌≡◌, ℕ, List, Some, None, length, map, IfOk, IfErr, OnOk};
ghost use Rattle.std.specs.Borrow.{Bor};
ghost use Rattle.std.specs.BTreeMap.{get};
ghost use Rattle.report_table.specs.Chains.{first_at, IsLinked, Rises};
ghost use Rattle.report_table.specs.Groups.{of_file};
ghost use Rattle.std.specs.FinMap.{entries};
ghost use Rattle.cov_dat.specs.DataText.{count_map};
ghost use Rattle.report_text.specs.Faults.{table_fault, TellsFault};
ghost use Rattle.report_text.specs.Tables.{seen_table, seen_tables, table_of, tables_of};
ghost use Rattle.report_table.specs.Seen.{AreRead, by_bytes, names_in, seen_points};

use crate::data_point::DataPoint;
use crate::file_groups::{FileGroups, file_groups};
use crate::file_table::file_table;
use crate::follow::follow;
use crate::ordered::ordered;
use crate::placing::test_places;
use cov_dat::Merged;
use cov_port::NoMemory;
use report_text::{FileTable, ReportFault};
use std::alloc::Global;

/// The tables of all files that have points, in byte order of their names.
///
/// A badly placed key and the limit are found before any table takes memory.
pub fn tables(alloc: Global, merged: &Merged) -> Result<Vec<FileTable<'_>>, ReportFault>
    ensures tables { IfOk result (λ tables. seen_tables tables.items ≡ tables_of (entries (count_map merged.now))) }
    ensures sound { OnOk result (table_fault (entries (count_map merged.now)) ≡ None) }
    ensures fault { IfErr result (TellsFault (table_fault (entries (count_map merged.now)))) }
{
    let points = ordered(alloc, merged)?;
    test_places(alloc, points.as_slice())?;
    Ok(group_tables(alloc, points.as_slice())?)
}

/// The tables of the files of these points.
fn group_tables<'a>(alloc: Global, points: &[DataPoint<'a>]) -> Result<Vec<FileTable<'a>>, NoMemory>
    requires { AreRead points.now }
    ensures { IfOk result (λ tables. seen_tables tables.items ≡ tables_of (seen_points points.now)) }
{
    let groups = file_groups(alloc, points)?;
    named_tables(alloc, points, &groups)
}

fn named_tables<'a>(
    alloc: Global,
    points: &[DataPoint<'a>],
    groups: &FileGroups<'a>,
) -> Result<Vec<FileTable<'a>>, NoMemory>
    requires read { AreRead points.now }
    requires first { (file : Bor (List ℕ)) → get by_bytes groups.now.first file ≡ first_at (of_file file.now) points.now 0 }
    requires linked { (file : List ℕ) → IsLinked (of_file file) points.now groups.now.next.items 0 }
    requires rises { Rises groups.now.next.items (length points.now) }
    requires len { length groups.now.next.items ≡ length points.now }
    ensures { IfOk result (λ tables. seen_tables tables.items ≡ map (table_of (seen_points points.now)) (names_in groups.now.first.entries)) }
{
    let mut tables = Vec::new(alloc);
    'files: for (name, first) in &groups.first {
        tables.push(named_table(alloc, points, groups.next.as_slice(), *name, *first)?)?;
    }
    Ok(tables)
}

/// The table of the file whose first point stands at this place.
fn named_table<'a>(
    alloc: Global,
    points: &[DataPoint<'a>],
    next: &[Option<usize>],
    name: &'a [u8],
    first: usize,
) -> Result<FileTable<'a>, NoMemory>
    requires read { AreRead points.now }
    requires first { first_at (of_file name.now) points.now 0 ≡ Some first }
    requires linked { IsLinked (of_file name.now) points.now next.now 0 }
    requires rises { Rises next.now (length points.now) }
    requires len { length next.now ≡ length points.now }
    ensures { IfOk result (λ table. seen_table table ≡ table_of (seen_points points.now) name.now) }
{
    let group = follow(alloc, points, next, first)?;
    file_table(alloc, name, group.as_slice())
}
