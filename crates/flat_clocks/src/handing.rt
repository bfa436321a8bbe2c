ghost use Rattle.std.specs.Prelude.{◌≡◌, ◌∷◌, ◌++◌, [], ◌||◌, ℕ, List, IfOk, OnOk, is_some};
ghost use Rattle.std.specs.List.{filter_map, flat_map, cons_option};
ghost use Rattle.vlog_tree.specs.declared.module.Port.{Port};
ghost use Rattle.scope_meaning.specs.Overrides.{pairs};
ghost use Rattle.flat_source_meaning.specs.Clocks.{port_names};
ghost use Rattle.name_table.specs.Tables.{value_of};
ghost use Rattle.flat_scopes.specs.Meanings.{meaning_by};
ghost use Rattle.flat_joins.specs.Seen.{pair_seen};
ghost use Rattle.flat_clocks.specs.Handings as spec;

use cov_types::{ByteText, NoMemory};
use flat_joins::{Pair, is_input, lone_name, pairs};
use flat_reach::Handing;
use flat_scopes::{NameMeaning, PlaceInScope, SeenScopes};
use flat_spots::Spot;
use name_table::NameTable;
use std::alloc::Global;
use vlog_tree::{Conns, Module, Port};

/// An instance: the scopes and the place where its connections are read, and the number of the scope that it makes.
#[derive(Clone, Copy)]
struct Making<'a> {
    scopes: &'a SeenScopes,
    at: PlaceInScope,
    makes: u32,
}

/// Puts the name of a port into a table, where the port is an input.
fn put_input(alloc: Global, table: &mut NameTable<()>, port: &Port) -> Result<(), NoMemory>
    ensures { OnOk result ((q : List ℕ) → is_some (value_of table.new q) ≡ (is_some (value_of table.old q) || spec.is_input_named q port.now)) }
{
    if is_input(port.kind) {
        table.put(alloc, port.name.as_slice(), ())?;
    }
    Ok(())
}

/// The names of the inputs among some ports.
fn inputs_of(alloc: Global, ports: &[Port]) -> Result<NameTable<()>, NoMemory>
    ensures { IfOk result (λ table. spec.AreInputs ports.now table) }
{
    let mut table = NameTable::new(alloc);
    for port in ports {
        put_input(alloc, &mut table, port)?;
    }
    Ok(table)
}

/// What is handed down to a port that is connected by this name alone: the variable of the name, if it means one.
fn handed_by_name(
    alloc: Global,
    making: Making<'_>,
    port: &[u8],
    name: &[u8],
) -> Result<Option<Handing>, NoMemory>
    ensures { IfOk result (λ handed. handed
        ≡ spec.handed_from making.entry.makes port.now name.now (meaning_by making.entry.scopes.now.scopes.items making.entry.at name.now)) }
{
    match making.scopes.meaning(making.at, name) {
        Some(NameMeaning::Variable { scope, kind: _ }) => {
            let name = ByteText::from_slice(alloc, name)?;
            let port = ByteText::from_slice(alloc, port)?;
            Ok(Some(Handing {
                from: scope,
                name,
                to: making.makes,
                port,
            }))
        }
        Some(NameMeaning::Constant(_)) => Ok(None),
        Some(NameMeaning::Genvar) => Ok(None),
        Some(NameMeaning::NoValue) => Ok(None),
        None => Ok(None),
    }
}

/// What a connection hands down to an input: a name alone that means a variable.
fn handed(
    alloc: Global,
    making: Making<'_>,
    inputs: &NameTable<()>,
    pair: Pair<'_>,
) -> Result<Option<Handing>, NoMemory>
    ensures { (ports : List Port) → spec.AreInputs ports inputs.now → IfOk result (λ handed. handed
        ≡ spec.handing_of making.entry.scopes.now.scopes.items making.entry.at making.entry.makes ports (pair_seen pair.entry)) }
{
    if inputs.contains(pair.name) {
        match lone_name(pair.expr) {
            Some(name) => handed_by_name(alloc, making, pair.name, name),
            None => Ok(None),
        }
    } else {
        Ok(None)
    }
}

/// Puts a handing behind others, if there is one.
fn put(all: &mut Vec<Handing>, handed: Option<Handing>) -> Result<(), NoMemory>
    ensures { OnOk result (all.new.items ≡ all.old.items ++ cons_option handed []) }
{
    match handed {
        Some(handed) => {
            all.push(handed)?;
            Ok(())
        }
        None => Ok(()),
    }
}

/// Puts what the connections of an instance hand down behind others.
fn put_instance(
    alloc: Global,
    making: Making<'_>,
    of: &Module,
    ports: &Conns,
    all: &mut Vec<Handing>,
) -> Result<(), NoMemory>
    ensures { OnOk result (all.new.items ≡ all.old.items ++ filter_map (spec.handing_of making.entry.scopes.now.scopes.items making.entry.at making.entry.makes
        of.now.ports) (pairs (port_names of.now.ports) ports.now)) }
{
    let inputs = inputs_of(alloc, of.ports.as_slice())?;
    let connected = pairs(alloc, of, ports)?;
    for pair in connected.as_slice() {
        let handed = handed(alloc, making, &inputs, *pair)?;
        put(all, handed)?;
    }
    Ok(())
}

/// Puts what a spot hands down behind others.
fn put_spot(
    alloc: Global,
    scopes: &SeenScopes,
    spot: &Spot<'_>,
    all: &mut Vec<Handing>,
) -> Result<(), NoMemory>
    ensures { OnOk result (all.new.items ≡ all.old.items ++ spec.handings_at scopes.now.scopes.items spot.now) }
{
    match spot {
        Spot::Instance {
            at,
            place: _,
            makes,
            of,
            ports,
        } => {
            let making = Making {
                scopes,
                at: *at,
                makes: *makes,
            };
            put_instance(alloc, making, of, ports, all)
        }
        Spot::Port { .. } => Ok(()),
        Spot::Item { .. } => Ok(()),
    }
}

/// What the connections of a design hand down.
pub(crate) fn handings(
    alloc: Global,
    scopes: &SeenScopes,
    spots: &[Spot<'_>],
) -> Result<Vec<Handing>, NoMemory>
    ensures { IfOk result (λ all. all.items ≡ flat_map (spec.handings_at scopes.now.scopes.items) spots.now) }
{
    let mut all = Vec::new(alloc);
    for spot in spots {
        put_spot(alloc, scopes, spot, &mut all)?;
    }
    Ok(all)
}
