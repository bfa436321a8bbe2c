ghost use Rattle.std.specs.Prelude.{◌≡◌, ℕ, List, [], ◌∷◌, ◌++◌, map, slice_get};
ghost use Rattle.std.specs.List.{filter_map};
ghost use Rattle.std.specs.Option.{option_copied};
ghost use Rattle.source_meaning.specs.Meaning.{Meaning};
ghost use Rattle.scope_meaning.specs.Constants as constants;
ghost use Rattle.scope_meaning.specs.Constants.{Wrong, Read, either_wrong};
ghost use Rattle.scope_meaning.specs.Scope.{Given};
ghost use Rattle.scope_meaning.specs.Overrides as spec;
ghost use Rattle.elab_constants.specs.Sized.{IsSized};
ghost use Rattle.elab_constants.specs.Reads.{Gives, Reads};
ghost use Rattle.elab_overrides.specs.Given.{IsGiven, AreGiven, IsStored, given_at, given_in_order, given_by_name};

use cov_types::ByteText;
use elab_constants::{ConstantFault, Names, SizedTerm, earlier, read};
use name_table::NameTable;
use std::alloc::Global;
use vlog_tree::{Conns, Expr, NamedConn};

/// The values that an instance gives to the parameters of its module, by name.
#[derive(Drop)]
pub struct Givens {
    values: NameTable<SizedTerm>,
}

/// The values so far, or the first thing that is wrong in them.
type GivenSoFar = Result<Givens, ConstantFault>;

/// A constant, or the first thing that is wrong in it.
type Reading = Result<SizedTerm, ConstantFault>;

impl Givens {
    /// No values, as the top and generate blocks have. It takes no memory.
    pub fn none(alloc: Global) -> Givens
        ensures { AreGiven [] result }
    {
        Givens {
            values: NameTable::new(alloc),
        }
    }

    /// The value that is given to a name.
    pub fn get(&self, name: &[u8]) -> Option<&SizedTerm>
        ensures { (given : List Given) → AreGiven given self.now → IsGiven (spec.given_to given name.now) (option_copied result) }
    {
        self.values.get(name)
    }
}

fn stored(alloc: Global, given: Givens, name: &[u8], value: SizedTerm) -> GivenSoFar
    ensures { (before : List Given) (m : Meaning) → AreGiven before given → IsSized m value
        → IsStored (AreGiven (before ++ given_at (Some name.now) m)) result }
{
    let Givens { mut values } = given;
    match values.put(alloc, name, value) {
        Ok(_) => Ok(Givens { values }),
        Err(_) => Err(ConstantFault::NoMemory),
    }
}

/// One value more, of a name.
fn with_value(alloc: Global, so_far: GivenSoFar, name: &[u8], value: Reading) -> GivenSoFar
    ensures { (before : List Given) (w : Wrong) (r : Read) → Gives (AreGiven before) w so_far → Reads r value
        → Gives (AreGiven (before ++ given_at (Some name.now) r.meaning)) (either_wrong w r.wrong) result }
{
    match so_far {
        Ok(given) => match value {
            Ok(value) => stored(alloc, given, name, value),
            Err(fault) => Err(fault),
        },
        Err(fault) => match value {
            Ok(_) => Err(fault),
            Err(other) => Err(earlier(fault, other)),
        },
    }
}

/// One value more, which no parameter takes.
fn without_name(so_far: GivenSoFar, value: Reading) -> GivenSoFar
    ensures { (before : List Given) (w : Wrong) (r : Read) → Gives (AreGiven before) w so_far → Reads r value
        → Gives (AreGiven (before ++ given_at None r.meaning)) (either_wrong w r.wrong) result }
{
    match so_far {
        Ok(given) => match value {
            Ok(_) => Ok(given),
            Err(fault) => Err(fault),
        },
        Err(fault) => match value {
            Ok(_) => Err(fault),
            Err(other) => Err(earlier(fault, other)),
        },
    }
}

/// One value more, of the parameter at a place.
fn with_value_at(
    alloc: Global,
    so_far: GivenSoFar,
    parameters: &[ByteText],
    at: usize,
    value: Reading,
) -> GivenSoFar
    ensures { (before : List Given) (w : Wrong) (r : Read) → Gives (AreGiven before) w so_far → Reads r value
        → Gives (AreGiven (before ++ given_at (slice_get parameters.now at) r.meaning)) (either_wrong w r.wrong) result }
{
    match sqlite_items::at(parameters, at) {
        Some(name) => with_value(alloc, so_far, name.as_slice(), value),
        None => without_name(so_far, value),
    }
}

fn in_order<N: Names>(
    alloc: Global,
    names: &N,
    parameters: &[ByteText],
    values: &[Expr],
) -> GivenSoFar
    ensures { (known : constants.Names) → N.environment names.now ≡ constants.constants known
        → Gives (AreGiven (given_in_order known parameters.now values.now))
        (constants.any_wrong (map (constants.read (constants.constants known)) values.now)) result }
{
    let mut given = Ok(Givens::none(alloc));
    for (at, value) in values.iter().enumerate() {
        given = with_value_at(alloc, given, parameters, at, read(alloc, names, value));
    }
    given
}

/// The value of a connection by name, if it has one.
fn with_connection<N: Names>(
    alloc: Global,
    names: &N,
    so_far: GivenSoFar,
    value: &NamedConn,
) -> GivenSoFar
    ensures { (known : constants.Names) (before : List Given) (w : Wrong) → N.environment names.now ≡ constants.constants known
        → Gives (AreGiven before) w so_far → Gives (AreGiven (before ++ given_by_name known (value.now ∷ [])))
        (either_wrong w (constants.any_wrong (map (constants.read (constants.constants known)) (filter_map (λ c. c.value) (value.now ∷ []))))) result }
{
    match &value.value {
        Some(of) => with_value(alloc, so_far, value.name.as_slice(), read(alloc, names, of)),
        None => so_far,
    }
}

fn by_name<N: Names>(alloc: Global, names: &N, values: &[NamedConn]) -> GivenSoFar
    ensures { (known : constants.Names) → N.environment names.now ≡ constants.constants known
        → Gives (AreGiven (given_by_name known values.now))
        (constants.any_wrong (map (constants.read (constants.constants known)) (filter_map (λ c. c.value) values.now))) result }
{
    let mut given = Ok(Givens::none(alloc));
    for value in values {
        given = with_connection(alloc, names, given, value);
    }
    given
}

/// The values that an instance gives to parameters of these names, each read where the instance stands; or the first thing
/// that is wrong in any of its values, also in one that no parameter takes.
pub fn given_values<N: Names>(
    alloc: Global,
    names: &N,
    parameters: &[ByteText],
    values: &Conns,
) -> Result<Givens, ConstantFault>
    ensures { (known : constants.Names) → N.environment names.now ≡ constants.constants known
        → Gives (AreGiven (filter_map (spec.given_of known) (spec.pairs parameters.now values.now)))
        (constants.any_wrong (map (constants.read (constants.constants known)) (spec.expressions values.now))) result }
{
    match values {
        Conns::Ordered(values) => in_order(alloc, names, parameters, values.as_slice()),
        Conns::Named(values) => by_name(alloc, names, values.as_slice()),
    }
}
