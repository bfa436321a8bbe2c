//! Tests by the points that they cover, and their tables.

ghost use Rattle.std.specs.Prelude.{◌≡◌, ◌+◌, ◌<◌, ◌≤◌, true, IfOk};
ghost use Rattle.test_rank.specs.Ranking.{Ascends};
ghost use Rattle.rank_tests.specs.ThreeTests.{three_rows};

use cov_types::{ByteText, LimitName, Rows};
use std::alloc::Global;
use std::marker::Brand;
use std::process::Abort;
use std::sync::ledger::{Blank, Ledger};
use std::test::Fail;
use step_count::Steps;
use test_rank::{RankFault, Ranking, TestCovers, one_ranking, rank, rank_text};

const HEADING: &[u8] = b"Rank RankPts Covered Test\n";

/// The points that each test covers, and the lines behind the heading.
const TABLES: &[(&[&[u32]], &[u8])] = &[
    (
        &[&[1, 2, 3], &[3, 4], &[1, 2]],
        b"2 3 3 a\n1 1 2 b\n0 0 2 c\n",
    ),
    (&[&[7], &[7]], b"1 1 1 a\n0 0 1 b\n"),
    (&[&[], &[]], b"0 0 0 a\n0 0 0 b\n"),
    (&[], b""),
    (
        &[&[1], &[1, 2, 3, 4], &[4, 5, 6], &[5, 6, 7]],
        b"2 4 4 b\n1 3 3 d\n0 0 1 a\n0 0 3 c\n",
    ),
    (
        &[&[1, 2], &[3, 4], &[2, 3, 9]],
        b"3 3 3 c\n2 1 2 a\n1 1 2 b\n",
    ),
];

/// The ranking of the three tests takes at most 16 steps.
fn three_tests<L: Ledger>(alloc: Global, steps: &mut Steps<L>) -> Result<Ranking, RankFault>
    ensures rows { IfOk result (λ rows. rows ≡ three_rows) }
    ensures ticks { IfOk result (λ rows. steps.new ≤ steps.old + 16) }
{
    one_ranking();
    let mut covers = TestCovers::new(alloc);
    covers.add_test(&[1, 2, 3])?;
    covers.add_test(&[3, 4])?;
    covers.add_test(&[1, 2])?;
    let ranking = rank(alloc, &covers, steps)?;
    Ok(ranking)
}

fn ascends(points: &[u32]) -> bool
    ensures { result ≡ true → Ascends points.now }
{
    match points {
        [first, rest @ ..] => match rest {
            [second, ..] => first < second && ascends(rest),
            [] => true,
        },
        [] => true,
    }
}

/// The table of tests that cover these points, named `a`, `b` and so on.
fn table<L: Ledger>(
    rt: &(impl Abort + AllocGlobal),
    blank: Blank,
    tests: &[&[u32]],
) -> Result<ByteText, Fail>
    requires name { blank.name ≡ L.name }
    requires parts { blank.parts ≡ L.parts }
    requires some { 0 < blank.parts }
{
    let alloc = rt.alloc();
    let mut steps = Steps::<L>::new(blank);
    let mut covers = TestCovers::new(alloc);
    let mut names = Rows::new(alloc);
    for (points, name) in tests.iter().zip(b'a'..=b'z') {
        assert!(rt; ascends(points));
        covers.add_test(points)?;
        names.push(ByteText::from_slice(alloc, &[name])?)?;
    }
    let ranking = rank(alloc, &covers, &mut steps)?;
    Ok(rank_text(alloc, &ranking, &names)?)
}

#[test]
fn tables_of_tests(rt: HostRuntime) -> Result<(), Fail> {
    for (tests, lines) in TABLES {
        let text = table::<Brand>(&rt, Blank::new(1), tests)?;
        assert!(&rt; text.as_slice().strip_prefix(HEADING) == Some(*lines));
    }
    Ok(())
}
