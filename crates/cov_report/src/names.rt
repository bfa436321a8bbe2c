ghost use Rattle.std.specs.Prelude.{◌≡◌, List, ℕ, None, IfErr, OnOk};
ghost use Rattle.std.specs.Str.{is_utf8};
ghost use Rattle.report_text.specs.FileNames.{is_good_name, is_name, is_reserved};
ghost use Rattle.report_text.specs.Faults.{name_fault, TellsFault};
ghost use Rattle.cov_report.specs.Names.{bad_name_fault, bad_name_of, name_fault_if, same_name_fault, same_name_of};

use crate::base_name::base_name;
use cov_port::ByteText;
use report_text::ReportFault;
use std::alloc::Global;
use std::collections::BTreeMap;
use std::str;

const MOST_NAME_BYTES: usize = 4_096;

/// The same where files are to be annotated, and else nothing.
pub(crate) fn test_if_annotated(
    alloc: Global,
    names: &[ByteText],
    annotate: bool,
) -> Result<(), ReportFault>
    ensures sound { OnOk result (name_fault_if annotate names.now ≡ None) }
    ensures fault { IfErr result (TellsFault (name_fault_if annotate names.now)) }
{
    if annotate {
        return test_names(alloc, names);
    }
    Ok(())
}

/// Tests that each name is good, and that no two have one base name.
fn test_names(alloc: Global, names: &[ByteText]) -> Result<(), ReportFault>
    ensures sound { OnOk result (name_fault names.now ≡ None) }
    ensures fault { IfErr result (TellsFault (name_fault names.now)) }
{
    test_each(alloc, names)?;
    test_bases(alloc, names)
}

fn test_each(alloc: Global, names: &[ByteText]) -> Result<(), ReportFault>
    ensures sound { OnOk result (bad_name_fault names.now ≡ None) }
    ensures fault { IfErr result (TellsFault (bad_name_fault names.now)) }
{
    'names: for name in names {
        if !is_good_name(name.as_slice()) {
            return Err(bad_name(alloc, name.as_slice()));
        }
    }
    Ok(())
}

fn bad_name(alloc: Global, name: &[u8]) -> ReportFault
    ensures { TellsFault (bad_name_of name.now) result }
{
    match ByteText::from_slice(alloc, name) {
        Ok(file) => ReportFault::BadFileName { file },
        Err(_) => ReportFault::NoMemory,
    }
}

fn test_bases(alloc: Global, names: &[ByteText]) -> Result<(), ReportFault>
    ensures sound { OnOk result (same_name_fault names.now ≡ None) }
    ensures fault { IfErr result (TellsFault (same_name_fault names.now)) }
{
    let mut bases = BTreeMap::new(alloc);
    'names: for place in 0..names.len() {
        let name = names[place].as_slice();
        match bases.insert(base_name(name), place) {
            Ok(None) => {}
            Ok(Some(_)) => return Err(same_name(alloc, name)),
            Err(_) => return Err(ReportFault::NoMemory),
        }
    }
    Ok(())
}

fn same_name(alloc: Global, name: &[u8]) -> ReportFault
    ensures { TellsFault (same_name_of name.now) result }
{
    match ByteText::from_slice(alloc, name) {
        Ok(file) => ReportFault::SameBaseName { file },
        Err(_) => ReportFault::NoMemory,
    }
}

/// Whether a file with this name can be read by it and written under its base name.
fn is_good_name(name: &[u8]) -> bool
    ensures { result ≡ is_good_name name.now }
{
    is_utf8(name) && is_name(name) && !is_reserved(base_name(name))
}

fn is_utf8(name: &[u8]) -> bool
    ensures { result ≡ is_utf8 name.now }
{
    match str::from_utf8(name) {
        Ok(_) => true,
        Err(_) => false,
    }
}

fn is_name(name: &[u8]) -> bool
    ensures { result ≡ is_name name.now }
{
    if name.is_empty() || name.len() > MOST_NAME_BYTES {
        return false;
    }
    'bytes: for byte in name {
        if *byte < 32 || *byte == 127 {
            return false;
        }
    }
    true
}

fn is_reserved(base: &[u8]) -> bool
    ensures { result ≡ is_reserved base.now }
{
    base.is_empty() || base == b".".as_slice() || base == b"..".as_slice()
}
