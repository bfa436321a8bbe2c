//! Modules and files.

use crate::expression::range;
use crate::item::items;
use crate::page::Page;
use cov_types::NoMemory;
use std::alloc::Global;
use vlog_tree::{Module, Port, SourceFile};

fn port(out: &mut Page, port: &Port) {
    out.put(" (");
    out.word(&port.kind);
    out.signed(port.signed);
    if let Some(bounds) = &port.range {
        range(out, bounds.get());
    }
    out.put(" ");
    out.bytes(&port.name);
    out.place(port.name_place);
    out.place(port.place);
    out.put(")");
}

fn module(out: &mut Page, module: &Module) {
    out.put("module ");
    out.bytes(&module.name);
    out.place(module.place);
    out.place(module.last);
    items(out, module.params.as_slice());
    for one in module.ports.as_slice() {
        port(out, one);
    }
    items(out, module.items.as_slice());
    out.put(";");
}

/// The modules of a file written down, and the kinds of its coverage comments behind them.
pub fn file_text(alloc: Global, file: &SourceFile) -> Result<String, NoMemory> {
    let mut out = Page::new(alloc);
    for one in file.modules.as_slice() {
        module(&mut out, one);
    }
    for pragma in file.pragmas.as_slice() {
        out.put(" ");
        out.word(&pragma.what);
    }
    out.into_text()
}
