use crate::left::Left;
use crate::place::ScopePlace;
use crate::record::Record;
use crate::stack::Stack;
use cov_types::Rows;
use elab_modules::OpenModules;
use elab_names::ScopeNames;

/// Where a walk stands: the number of the next scope; the place in the open scope, and the names of the scopes that are
/// visible there, that of its module first; the modules that it stands in; what is left to do; and what the walk came to.
#[derive(Drop)]
pub struct Walk<'a> {
    pub next: u32,
    pub here: ScopePlace,
    pub names: Vec<ScopeNames>,
    pub above: OpenModules,
    pub left: Stack<Left<'a>>,
    pub records: Rows<Record>,
}
