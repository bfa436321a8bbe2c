ghost use Rattle.std.specs.Prelude.{◌≡◌, ◌∷◌, [], ◌++◌, map, IfOk, OnOk};
ghost use Rattle.std.specs.List.{filter_map};
ghost use Rattle.scope_meaning.specs.Overrides as spec;
ghost use Rattle.flat_source_meaning.specs.Clocks.{port_names};
ghost use Rattle.flat_joins.specs.Seen.{pair_seen};

use cov_types::NoMemory;
use std::alloc::Global;
use vlog_tree::{Conns, Expr, Module, NamedConn, Port};

/// The name of a port, or of none, and the expression that connections pair with it.
#[derive(Clone, Copy)]
pub struct Pair<'a> {
    pub name: &'a [u8],
    pub expr: &'a Expr,
}

/// In order: each expression with the name of the port at its place.
fn in_order<'a>(
    alloc: Global,
    ports: &'a [Port],
    exprs: &'a [Expr],
) -> Result<Vec<Pair<'a>>, NoMemory>
    ensures { IfOk result (λ all. map pair_seen all.items ≡ spec.in_order (port_names ports.now) exprs.now) }
{
    let count = ports.len().min(exprs.len());
    let mut all = Vec::new(alloc);
    for at in 0..count {
        let name = ports[at].name.as_slice();
        let expr = &exprs[at];
        all.push(Pair { name, expr })?;
    }
    Ok(all)
}

/// Puts the pair of a connection by name behind others, unless it is left open.
fn put_named<'a>(all: &mut Vec<Pair<'a>>, conn: &'a NamedConn) -> Result<(), NoMemory>
    ensures { OnOk result (map pair_seen all.new.items ≡ map pair_seen all.old.items ++ filter_map spec.with_value (conn.now ∷ [])) }
{
    match &conn.value {
        Some(expr) => {
            let name = conn.name.as_slice();
            all.push(Pair { name, expr })?;
            Ok(())
        }
        None => Ok(()),
    }
}

/// By name: those that aren't left open.
fn by_name(alloc: Global, conns: &[NamedConn]) -> Result<Vec<Pair<'_>>, NoMemory>
    ensures { IfOk result (λ all. map pair_seen all.items ≡ filter_map spec.with_value conns.now) }
{
    let mut all = Vec::new(alloc);
    for conn in conns {
        put_named(&mut all, conn)?;
    }
    Ok(all)
}

/// What the connections of an instance of a module pair, in their order: all of them, also a second one of a name.
pub fn pairs<'a>(alloc: Global, of: &'a Module, conns: &'a Conns) -> Result<Vec<Pair<'a>>, NoMemory>
    ensures { IfOk result (λ all. map pair_seen all.items ≡ spec.pairs (port_names of.now.ports) conns.now) }
{
    match conns {
        Conns::Ordered(exprs) => in_order(alloc, of.ports.as_slice(), exprs.as_slice()),
        Conns::Named(conns) => by_name(alloc, conns.as_slice()),
    }
}
