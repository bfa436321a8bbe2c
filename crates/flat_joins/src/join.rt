ghost use Rattle.std.specs.Prelude.{◌≡◌, ◌∷◌, [], ◌++◌, map, IfOk, OnOk};
ghost use Rattle.std.specs.List.{filter_map};
ghost use Rattle.flat_source_meaning.specs.Joins as spec;
ghost use Rattle.flat_joins.specs.Seen.{Pairs, pair_seen, join_seen, IsTableOf};

use crate::pair::{Pair, pairs};
use cov_types::NoMemory;
use name_table::NameTable;
use std::alloc::Global;
use vlog_tree::{Conns, Expr, Module, Port};

/// A port and the expression that it is connected to.
#[derive(Clone, Copy)]
pub struct Joined<'a> {
    pub port: &'a Port,
    pub expr: &'a Expr,
}

/// The expressions by name; of two of one name the first.
fn table_of<'a>(alloc: Global, all: &[Pair<'a>]) -> Result<NameTable<&'a Expr>, NoMemory>
    ensures { IfOk result (λ table. IsTableOf (map pair_seen all.now) table) }
{
    let mut table = NameTable::new(alloc);
    for pair in all {
        table.put(alloc, pair.name, pair.expr)?;
    }
    Ok(table)
}

/// Puts the connection of a port behind others, unless the port is left open.
fn put_join<'a>(
    joined: &mut Vec<Joined<'a>>,
    table: &NameTable<&'a Expr>,
    port: &'a Port,
) -> Result<(), NoMemory>
    ensures { (all : Pairs) → IsTableOf all table.now
        → OnOk result (map join_seen joined.new.items ≡ map join_seen joined.old.items ++ filter_map (spec.join_at all) (port.now ∷ [])) }
{
    match table.get(port.name.as_slice()) {
        Some(expr) => {
            joined.push(Joined { port, expr: *expr })?;
            Ok(())
        }
        None => Ok(()),
    }
}

/// The connections of an instance of a module in the order of the ports; those left open are none.
pub fn joins<'a>(
    alloc: Global,
    of: &'a Module,
    conns: &'a Conns,
) -> Result<Vec<Joined<'a>>, NoMemory>
    ensures { IfOk result (λ joined. map join_seen joined.items ≡ spec.joins of.now conns.now) }
{
    let all = pairs(alloc, of, conns)?;
    let table = table_of(alloc, all.as_slice())?;
    let mut joined = Vec::new(alloc);
    for port in of.ports.as_slice() {
        put_join(&mut joined, &table, port)?;
    }
    Ok(joined)
}
