use cov_types::ByteText;
use elab_overrides::Givens;
use name_table::NameTable;

/// A place in an open scope, but for what names mean there.
///
/// `number` and `home` are numbers of scopes, that of the scope and that of its module's, and `in_module` is the number of
/// the module. `item` is the number of the next item, `construct` counts the generate constructs before it, and `earlier`
/// has the names that are declared before it.
#[derive(Drop)]
pub struct ScopePlace {
    pub number: u32,
    pub path: ByteText,
    pub in_module: u32,
    pub home: u32,
    pub given: Givens,
    pub earlier: NameTable<()>,
    pub item: u32,
    pub construct: u32,
}
