//! The files of a case.

use anyhow::anyhow;
use cov_types::Rows;
use std::alloc::Global;
use vlog_lexer::tokens;
use vlog_parser::parse;
use vlog_tree::SourceFile;

/// The most bytes of a file.
const MOST_BYTES: usize = 5_000_000;

/// The file of a number.
fn file_of(alloc: Global, text: &[u8], number: u32) -> anyhow::Result<SourceFile> {
    if text.len() > MOST_BYTES {
        return Err(anyhow!("too long"));
    }
    let Ok(list) = tokens(alloc, text, number) else {
        return Err(anyhow!("no tokens"));
    };
    match parse(alloc, &list) {
        Ok(file) => Ok(file),
        Err(_) => Err(anyhow!("no tree")),
    }
}

/// The files of these texts, numbered from 0.
pub(crate) fn files_of(alloc: Global, texts: &[Vec<u8>]) -> anyhow::Result<Rows<SourceFile>> {
    let mut files = Rows::new(alloc);
    for (number, text) in texts.iter().enumerate() {
        let number = u32::try_from(number)?;
        if files
            .push(file_of(alloc, text.as_slice(), number)?)
            .is_err()
        {
            return Err(anyhow!("no memory"));
        }
    }
    Ok(files)
}
