//! The names of annotated files.

ghost use Rattle.std.specs.Prelude.{◌≡◌, IfOk, string_bytes};
ghost use Rattle.report_text.specs.FileNames.{base_name};
ghost use Rattle.cover_answer.specs.Reports as spec;

use cov_port::NoMemory;
use std::alloc::Global;

/// What follows the last `/`.
pub fn base_of(file: &str) -> &str
    ensures { result.now ≡ base_name file.now }
{
    match file.rfind('/') {
        Some(at) => &file[at + 1..],
        None => file,
    }
}

/// The name of the annotated file of a source in a folder.
pub fn stored_name(alloc: Global, folder: &str, file: &str) -> Result<String, NoMemory>
    ensures { IfOk result (λ name. string_bytes name ≡ spec.stored_name folder.now file.now) }
{
    let mut name = String::from_str(alloc, folder)?;
    name.push_str("/")?;
    name.push_str(base_of(file))?;
    Ok(name)
}
