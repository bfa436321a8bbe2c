ghost use Rattle.flat_expressions.specs.Resolved.{IsResolved};

/// What a name stands for.
#[derive(Clone, Copy, Debug, PartialEq, Eq)]
pub enum Resolved {
    /// The variable of this number.
    Variable(u32),
    /// A parameter, a genvar, or a loop variable in a pass.
    Constant {
        width: u8,
        signed: bool,
        value: u128,
    },
    /// Nothing that has a value.
    Nothing,
}

/// What names stand for at a place of a design, and in a pass of a loop there.
pub trait Resolves {
    ghost use Rattle.std.specs.Prelude.{List};
    ghost use Rattle.elab_types.specs.declared.flat_source.FlatVar.{FlatVar};
    ghost use Rattle.source_meaning.specs.Environment.{Environment};

    ghost vars: { Self → List FlatVar };

    ghost environment: { Self → Environment };

    /// What a name stands for; a variable has the number that it has among all variables.
    fn resolve(&self, name: &[u8]) -> Resolved
        ensures { IsResolved (vars self.now) ((environment self.now).look name.now) result };
}
