//! What a text is read as.

use crate::token_list::{fault_told, read_tokens};
use anyhow::anyhow;
use std::alloc::Global;
use tree_text::file_text;
use vlog_parser::{SyntaxFault, parse};
use vlog_tree::SourceFile;

/// What a text in file 0 is read as: a tree, or what is told in place of it.
#[derive(Drop)]
enum Reading {
    Tree(SourceFile),
    Refused(String),
}

fn read_text(alloc: Global, text: &[u8]) -> anyhow::Result<Reading> {
    let list = match read_tokens(alloc, text, 0)? {
        Err(fault) => return Ok(Reading::Refused(fault_told(alloc, fault)?)),
        Ok(list) => list,
    };
    match parse(alloc, &list) {
        Ok(file) => Ok(Reading::Tree(file)),
        Err(SyntaxFault::Syntax(place)) => Ok(Reading::Refused(format!(in alloc;
            "{}:{}",
            place.line, place.column
        )?)),
        Err(SyntaxFault::NoMemory) => Err(anyhow!("no memory")),
    }
}

/// The tree of a text written down, or the line and column where it is refused, or the fault of its tokens.
pub(crate) fn tree_told(alloc: Global, text: &[u8]) -> anyhow::Result<String> {
    match read_text(alloc, text)? {
        Reading::Tree(file) => Ok(file_text(alloc, &file)?),
        Reading::Refused(told) => Ok(told),
    }
}

/// The same without the tree.
pub(crate) fn is_read(alloc: Global, text: &[u8]) -> anyhow::Result<String> {
    match read_text(alloc, text)? {
        Reading::Tree(_) => Ok(String::from_str(alloc, "read")?),
        Reading::Refused(told) => Ok(told),
    }
}
