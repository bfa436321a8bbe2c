use crate::{Sorted, is_graph, sort};
use cov_types::Rows;
use std::alloc::Global;
use std::test::Fail;

fn graph(alloc: Global, rows: &[&[u32]]) -> Result<Vec<Rows<u32>>, Fail> {
    let mut g = Vec::new(alloc);
    for row in rows {
        g.push(Rows::from_vec(Vec::from_slice(alloc, row)?))?;
    }
    Ok(g)
}

fn sorted(alloc: Global, rows: &[&[u32]]) -> Result<Sorted, Fail> {
    let g = graph(alloc, rows)?;
    let small = u32::try_from(g.len()).is_ok();
    if !small || !is_graph(&g) {
        return Err("no graph".into());
    }
    Ok(sort(alloc, &g)?)
}

#[test]
fn orders(rt: HostRuntime) -> Result<(), Fail> {
    if let Sorted::Order(order) = sorted(rt.alloc(), &[&[2], &[], &[3, 1], &[1]])? {
        assert_eq!(rt; order.as_slice(), [0, 2, 3, 1].as_slice());
        return Ok(());
    }
    Err("no order".into())
}

#[test]
fn circles(rt: HostRuntime) -> Result<(), Fail> {
    if let Sorted::Circle(circle) = sorted(rt.alloc(), &[&[1], &[2], &[1], &[3]])? {
        assert_eq!(rt; circle.as_slice(), [1, 2].as_slice());
        return Ok(());
    }
    Err("no circle".into())
}
