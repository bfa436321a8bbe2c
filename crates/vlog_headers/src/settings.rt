//! The parameters in the header of a module.

ghost use Rattle.std.specs.Prelude.{◌≡◌, false, [], ◌∷◌, Some, IfOk};
ghost use Rattle.std.specs.Option.{option_copied};
ghost use Rattle.vlog_reading.specs.ReadModules as spec;
ghost use Rattle.vlog_reading.specs.Reading.{Reads};
ghost use Rattle.vlog_tree.specs.Trees.{item};

use cov_types::{NoMemory, Place, Rows};
use std::alloc::Global;
use vlog_cursor::{Cursor, Rule, Word};
use vlog_declarations::{ParamRule, param_form};
use vlog_reading::ReadFault;
use vlog_tree::{Item, ItemKind, ParamForm, ParamName};

/// One more of this type, which shares its range.
fn shared_form(form: &ParamForm) -> Result<ParamForm, NoMemory>
    ensures { IfOk result (λ f. f ≡ form.now) }
{
    match form {
        ParamForm::Plain => Ok(ParamForm::Plain),
        ParamForm::Integer => Ok(ParamForm::Integer),
        ParamForm::Ranged { signed, range } => {
            let range = range.share()?;
            Ok(ParamForm::Ranged {
                signed: *signed,
                range,
            })
        }
    }
}

/// The item that a setting of the header is.
fn parameter(
    alloc: Global,
    place: Place,
    form: ParamForm,
    name: ParamName,
) -> Result<Item, NoMemory>
    ensures { IfOk result (λ it. it ≡ item place (ItemKind.Parameter false form (name ∷ []))) }
{
    let mut names = Rows::new(alloc);
    names.push(name)?;
    Ok(Item {
        place,
        what: ItemKind::Parameter {
            local: false,
            form,
            names,
        },
    })
}

/// The item that a setting of the header is, and its type for the setting after it.
fn parameter_and_form(
    alloc: Global,
    place: Place,
    form: ParamForm,
    name: ParamName,
) -> Result<(Item, ParamForm), NoMemory>
    ensures { IfOk result (λ found. (found.0 ≡ item place (ItemKind.Parameter false form (name ∷ []))) × (found.1 ≡ form)) }
{
    let kept = shared_form(&form)?;
    let item = parameter(alloc, place, form, name)?;
    Ok((item, kept))
}

/// The type of a setting after one of this type: the one after its word `parameter`, or else the
/// same.
#[tactic(auto, unfolding(vlog_reading::specs::ReadModules::setting_form))]
fn setting_form(
    alloc: Global,
    tokens: &mut Cursor<'_>,
    before: Option<&ParamForm>,
) -> Result<ParamForm, ReadFault>
    ensures { Reads (spec.setting_form (option_copied before.entry) tokens.old) result tokens.new }
{
    if tokens.eat(Word::Parameter) {
        return param_form(alloc, tokens);
    }
    match before {
        None => Err(ReadFault::Syntax),
        Some(form) => Ok(shared_form(form)?),
    }
}

/// A setting of this type that begins at this place, and its type.
#[tactic(auto, unfolding(vlog_reading::specs::ReadModules::setting_of))]
fn setting_of(
    alloc: Global,
    tokens: &mut Cursor<'_>,
    place: Place,
    form: ParamForm,
) -> Result<(Item, ParamForm), ReadFault>
    ensures { Reads (spec.setting_of place form tokens.old) result tokens.new }
{
    let name = ParamRule.read(alloc, tokens)?;
    Ok(parameter_and_form(alloc, place, form, name)?)
}

/// A setting after one of this type, and its type.
#[tactic(auto, unfolding(vlog_reading::specs::ReadModules::setting))]
fn setting(
    alloc: Global,
    tokens: &mut Cursor<'_>,
    before: Option<&ParamForm>,
) -> Result<(Item, ParamForm), ReadFault>
    ensures { Reads (spec.setting (option_copied before.entry) tokens.old) result tokens.new }
{
    let place = tokens.place();
    let form = setting_form(alloc, tokens, before)?;
    setting_of(alloc, tokens, place, form)
}

/// Settings with commas between.
#[tactic(auto, unfolding(vlog_reading::specs::ReadModules::settings, vlog_reading::specs::ReadModules::settings_from))]
fn settings(alloc: Global, tokens: &mut Cursor<'_>) -> Result<Rows<Item>, ReadFault>
    ensures { Reads (spec.settings tokens.old) result tokens.new }
{
    let mut found = Rows::new(alloc);
    let mut before: Option<ParamForm> = None;
    for _turn in 0..tokens.left() {
        let (parameter, form) = setting(alloc, tokens, before.as_ref())?;
        found.push(parameter)?;
        if !tokens.eat(Word::Comma) {
            return Ok(found);
        }
        before = Some(form);
    }
    Err(ReadFault::Syntax)
}

/// The settings in their parentheses, after the `#`.
#[tactic(auto, unfolding(vlog_reading::specs::ReadModules::header_inside))]
fn header_inside(alloc: Global, tokens: &mut Cursor<'_>) -> Result<Rows<Item>, ReadFault>
    ensures { Reads (spec.header_inside tokens.old) result tokens.new }
{
    tokens.expect(Word::OpenParen)?;
    let all = settings(alloc, tokens)?;
    tokens.expect(Word::CloseParen)?;
    Ok(all)
}

/// The parameters in the header of a module; none where none are written.
#[tactic(auto, unfolding(vlog_reading::specs::ReadModules::header))]
pub fn header(alloc: Global, tokens: &mut Cursor<'_>) -> Result<Rows<Item>, ReadFault>
    ensures { Reads (spec.header tokens.old) result tokens.new }
{
    if !tokens.eat(Word::Hash) {
        return Ok(Rows::new(alloc));
    }
    header_inside(alloc, tokens)
}
