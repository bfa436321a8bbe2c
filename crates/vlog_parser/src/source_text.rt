//! The tree of all the tokens.

ghost use Rattle.std.specs.Prelude.{◌≡◌, ◌≢◌, [], Some, None, Err, IfOk};
ghost use Rattle.cov_types.specs.declared.place.Place.{Place};
ghost use Rattle.vlog_grammar.specs.Modules.{SpellsFile};
ghost use Rattle.vlog_grammar.specs.Tokens.{IsPlaceOf};
ghost use Rattle.vlog_reading.specs.ReadModules.{only_modules};
ghost use Rattle.vlog_reading.specs.Reading.{Answers};
ghost use Rattle.vlog_tree.specs.declared.module.SourceFile.{SourceFile};

use crate::fault::SyntaxFault;
use crate::module::modules;
use cov_types::{NoMemory, Place, Pragma, Rows};
use std::alloc::Global;
use vlog_cursor::Cursor;
use vlog_laws::files_are_exact;
use vlog_reading::ReadFault;
use vlog_tokens::{Token, TokenList};
use vlog_tree::{Module, SourceFile};

/// All modules, where no tokens are left after them.
#[tactic(auto, unfolding(vlog_reading::specs::ReadModules::only_modules))]
fn modules_to_end(alloc: Global, tokens: &mut Cursor<'_>) -> Result<Rows<Module>, ReadFault>
    ensures { Answers (only_modules tokens.old) result }
{
    let found = modules(alloc, tokens)?;
    if tokens.peek().is_none() {
        Ok(found)
    } else {
        Err(ReadFault::Syntax)
    }
}

/// The place of the first of the last `left` tokens, or of the last one.
fn place_at(tokens: &[Token], left: usize) -> Place
    requires { tokens.now ≢ [] }
    ensures { IsPlaceOf tokens.now result }
{
    let last = tokens.len() - 1;
    tokens[last.min(tokens.len().saturating_sub(left))].place
}

/// The modules that the tokens are, or else the place of the token where reading stopped.
fn all_modules(alloc: Global, tokens: &[Token]) -> Result<Rows<Module>, SyntaxFault>
    requires { only_modules tokens.now ≡ None → tokens.now ≢ [] }
    ensures tree { IfOk result (λ all. only_modules tokens.now ≡ Some all) }
    ensures outside { (p : Place) → result ≡ Err (SyntaxFault.Syntax p) → only_modules tokens.now ≡ None }
    ensures place { (p : Place) → result ≡ Err (SyntaxFault.Syntax p) → IsPlaceOf tokens.now p }
{
    let mut cursor = Cursor::new(tokens);
    match modules_to_end(alloc, &mut cursor) {
        Ok(all) => Ok(all),
        Err(ReadFault::NoMemory) => Err(SyntaxFault::NoMemory),
        Err(ReadFault::Syntax) => Err(SyntaxFault::Syntax(place_at(tokens, cursor.left()))),
    }
}

/// A copy of the coverage comments.
fn copied_pragmas(alloc: Global, pragmas: &[Pragma]) -> Result<Rows<Pragma>, NoMemory>
    ensures { IfOk result (λ all. all ≡ pragmas.now) }
{
    let all = Vec::from_slice(alloc, pragmas)?;
    Ok(Rows::from_vec(all))
}

/// The one tree that the tokens spell, where there is one, with a copy of their coverage comments
/// (IEEE 1364-2005, source text; docs/formats.md, "Grammar").
///
/// The place of `Syntax` is that of the token where reading stopped, or of the last one at the end.
pub fn parse(alloc: Global, tokens: &TokenList) -> Result<SourceFile, SyntaxFault>
    ensures tree { IfOk result (λ file. SpellsFile tokens.now file) }
    ensures outside { (p : Place) → result ≡ Err (SyntaxFault.Syntax p) → (file : SourceFile) → SpellsFile tokens.now file → ⊥ }
    ensures place { (p : Place) → result ≡ Err (SyntaxFault.Syntax p) → IsPlaceOf tokens.now.tokens p }
{
    files_are_exact();
    let modules = all_modules(alloc, tokens.tokens.as_slice())?;
    let pragmas = copied_pragmas(alloc, tokens.pragmas.as_slice())?;
    Ok(SourceFile { modules, pragmas })
}
