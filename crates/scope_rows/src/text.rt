ghost use Rattle.std.specs.Prelude.{◌≡◌, List, map, slice_get, IfOk};
ghost use Rattle.vlog_tree.specs.declared.module.SourceFile.{SourceFile};
ghost use Rattle.scope_meaning.specs.ScopeTrees as trees;
ghost use Rattle.elab_modules.specs.Modules.{AreModules};
ghost use Rattle.scope_rows.specs.Rows as spec;

use cov_types::{ByteText, NoMemory, Rows};
use elab_modules::Modules;
use elab_texts::module_text;
use elab_types::Constant;
use row_lists::RowLists;
use std::alloc::Global;
use walk_state::Entered;

/// The text of a module's scope that has these constants.
fn text_of(
    alloc: Global,
    modules: &Modules<'_>,
    number: u32,
    constants: &[Constant],
) -> Result<ByteText, NoMemory>
    ensures { (files : List SourceFile) → AreModules files modules.now
        → IfOk result (λ text. text ≡ trees.text_of (slice_get (trees.modules files) number) (map trees.seen_constant constants.now)) }
{
    let Some(of) = modules.get(number as usize) else {
        return Ok(ByteText::new(alloc));
    };
    let Some(found) = modules.find(of.name.as_slice()) else {
        return Err(NoMemory);
    };
    module_text(alloc, of.name.as_slice(), found.parameters, constants)
}

/// A scope with the text of its module.
#[derive(Drop)]
pub(crate) struct TextedScope {
    pub entered: Entered,
    pub text: ByteText,
}

/// Scopes with their texts, where these are the constants of all scopes.
pub(crate) fn with_texts(
    alloc: Global,
    modules: &Modules<'_>,
    entered: Rows<Entered>,
    constants: &RowLists<Constant>,
) -> Result<Rows<TextedScope>, NoMemory>
    ensures { (files : List SourceFile) → AreModules files modules.now
        → IfOk result (λ scopes. scopes ≡ map (spec.texted (trees.modules files) constants.now) entered) }
{
    let mut scopes = Rows::new(alloc);
    for scope in entered.into_vec() {
        let home = constants.list(scope.home as usize);
        let text = text_of(alloc, modules, scope.in_module, home)?;
        scopes.push(TextedScope {
            entered: scope,
            text,
        })?;
    }
    Ok(scopes)
}
