//! The points of a test.

ghost use Rattle.std.specs.Prelude.{◌≡◌};
ghost use Rattle.test_rank.specs.Ranking.{Ascends};
ghost use Rattle.cover_gather.specs.Points.{ascending};

/// Puts numbers in ascending order, each once.
pub(crate) fn put_in_order(points: &mut Vec<u32>)
    ensures value { points.new.items ≡ ascending points.old.items }
    ensures ascends { Ascends points.new.items }
{
    points.sort_unstable();
    points.dedup();
}
