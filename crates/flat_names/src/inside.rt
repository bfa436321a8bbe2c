ghost use Rattle.std.specs.Prelude.{◌≡◌, ℕ, List};
ghost use Rattle.source_meaning.specs.Environment.{Environment};
ghost use Rattle.scope_meaning.specs.Declared.{is_in};
ghost use Rattle.scope_meaning.specs.Scope.{Here, At, Frame, frames, meaning_of};
ghost use Rattle.flat_meaning.specs.Expressions.{looked_up};
ghost use Rattle.flat_source_meaning.specs.Environments.{environment, position, numbered as resolved_number};
ghost use Rattle.scope_table.specs.Tables.{value_in};
ghost use Rattle.elab_constants.specs.Names.{IsConstant};
ghost use Rattle.flat_expressions.specs.Resolved.{IsResolved};
ghost use Rattle.flat_scopes.specs.Frames.{AreFramesAt, Means};
ghost use Rattle.flat_names.specs.Loops.{loop_names, in_passes};
ghost use Rattle.flat_names.specs.Inside.{environment_by};
ghost use Rattle.flat_names.specs.Inside as spec;

use crate::loops::{LoopValue, loop_value, turns_over};
use bit_values::Bits;
use elab_constants::{ConstantValue, Names};
use elab_types::FlatVar;
use flat_expressions::{Resolved, Resolves};
use flat_scopes::{NameMeaning, PlaceInScope, SeenScopes};
use scope_table::ScopeTable;

/// The names that are seen from a place of a design, in the passes of the loops around it.
///
/// `numbers` has the number of each variable by its scope and name. `loops` has the loop variables, the outermost first.
#[derive(Clone, Copy)]
pub struct InsideNames<'a> {
    scopes: &'a SeenScopes,
    at: PlaceInScope,
    vars: &'a [FlatVar],
    numbers: &'a ScopeTable<u32>,
    loops: &'a [LoopValue<'a>],
}

/// The variable of a number, where there is one.
fn numbered(vars: &[FlatVar], number: u32) -> Resolved
    ensures { IsResolved vars.now (looked_up vars.now number) result }
{
    let at = number as usize;
    let count = vars.len();
    if at < count {
        return Resolved::Variable(number);
    }
    Resolved::Nothing
}

/// A constant of 32 bits, signed.
fn loop_constant(value: u32) -> ConstantValue
    ensures { spec.IsLoopConstant value result }
{
    ConstantValue {
        value: Bits::new(32, u128::from(value)),
        signed: true,
    }
}

impl<'a> InsideNames<'a> {
    /// The names at a place, where these are the values of the loops around.
    pub fn new(
        scopes: &'a SeenScopes,
        at: PlaceInScope,
        vars: &'a [FlatVar],
        numbers: &'a ScopeTable<u32>,
        loops: &'a [LoopValue<'a>],
    ) -> InsideNames<'a>
        ensures environment { (here : Here) (place : At) → AreFramesAt scopes.now.scopes.items at (frames here place) → at.scope ≡ here.number
            → ((s : ℕ) (n : List ℕ) → value_in numbers.now s n ≡ position vars.now s n)
            → environment_by result ≡ in_passes loops.now (environment vars.now here place) }
        ensures vars { result.vars.now ≡ vars.now }
        ensures parts { spec.IsMadeOf scopes.now at loops.now result }
    {
        InsideNames {
            scopes,
            at,
            vars,
            numbers,
            loops,
        }
    }

    /// What a name means in the scopes, whatever the loops around turn over.
    pub fn meaning(&self, name: &[u8]) -> Option<NameMeaning>
        ensures { (fs : List Frame) → AreFramesAt self.now.scopes.now.scopes.items self.now.at fs → Means (meaning_of fs name.now) result }
    {
        self.scopes.meaning(self.at, name)
    }

    /// Whether a loop around turns over a name.
    pub fn is_turned(&self, name: &[u8]) -> bool
        ensures { result ≡ is_in name.now (loop_names self.now.loops.now) }
    {
        turns_over(self.loops, name)
    }

    /// The variable of a scope and name, where it has a number.
    fn variable_of(&self, scope: u32, name: &[u8]) -> Resolved
        ensures { IsResolved self.now.vars.now (resolved_number self.now.vars.now (value_in self.now.numbers.now scope name.now)) result }
    {
        match self.numbers.get(scope, name) {
            Some(number) => numbered(self.vars, *number),
            None => Resolved::Nothing,
        }
    }

    /// What a name stands for that means this, where no loop turns over it.
    fn standing(&self, meant: NameMeaning, name: &[u8]) -> Resolved
        ensures { IsResolved self.now.vars.now (spec.stands_meant self.now.vars.now self.now.numbers.now name.now meant) result }
    {
        match meant {
            NameMeaning::Constant(of) => Resolved::Constant {
                width: of.value.width,
                signed: of.signed,
                value: of.value.bits,
            },
            NameMeaning::Variable { scope, kind: _ } => self.variable_of(scope, name),
            NameMeaning::Genvar => Resolved::Nothing,
            NameMeaning::NoValue => Resolved::Nothing,
        }
    }

    /// The same where a name may mean nothing.
    fn standing_for(&self, meant: Option<NameMeaning>, name: &[u8]) -> Resolved
        ensures { IsResolved self.now.vars.now (spec.stands_for self.now.vars.now self.now.numbers.now name.now meant) result }
    {
        match meant {
            Some(meant) => self.standing(meant, name),
            None => Resolved::Nothing,
        }
    }

    /// What a name stands for.
    fn resolved(&self, name: &[u8]) -> Resolved
        ensures { IsResolved self.now.vars.now ((environment_by self.now).look name.now) result }
    {
        match loop_value(self.loops, name) {
            Some(value) => Resolved::Constant {
                width: 32,
                signed: true,
                value: u128::from(value),
            },
            None => self.standing_for(self.scopes.meaning(self.at, name), name),
        }
    }

    /// The constant that a name stands for that means this.
    fn constant_meant(&self, meant: NameMeaning, name: &[u8]) -> Option<ConstantValue>
        ensures { IsConstant (spec.stands_meant self.now.vars.now self.now.numbers.now name.now meant) result }
    {
        match meant {
            NameMeaning::Constant(value) => Some(value),
            NameMeaning::Variable { .. } => None,
            NameMeaning::Genvar => None,
            NameMeaning::NoValue => None,
        }
    }

    /// The same where a name may mean nothing.
    fn constant_for(&self, meant: Option<NameMeaning>, name: &[u8]) -> Option<ConstantValue>
        ensures { IsConstant (spec.stands_for self.now.vars.now self.now.numbers.now name.now meant) result }
    {
        match meant {
            Some(meant) => self.constant_meant(meant, name),
            None => None,
        }
    }

    /// The constant that a name stands for.
    fn constant_named(&self, name: &[u8]) -> Option<ConstantValue>
        ensures { IsConstant ((environment_by self.now).look name.now) result }
    {
        match loop_value(self.loops, name) {
            Some(value) => Some(loop_constant(value)),
            None => self.constant_for(self.scopes.meaning(self.at, name), name),
        }
    }
}

impl Resolves for InsideNames<'_> {
    ghost vars = { λ names. names.vars.now };

    ghost environment = { λ names. environment_by names };

    fn resolve(&self, name: &[u8]) -> Resolved {
        self.resolved(name)
    }
}

impl Names for InsideNames<'_> {
    ghost environment = { λ names. environment_by names };

    fn constant(&self, name: &[u8]) -> Option<ConstantValue> {
        self.constant_named(name)
    }
}
