//! The table of a ranking.

ghost use Rattle.std.specs.Prelude.{◌≡◌, ◌<◌, ◌++◌, [], List, map, IfOk, if◌then◌else◌};
ghost use Rattle.test_rank.specs.Ranking.{IsRanking, rank_text as table_of};
ghost use Rattle.test_rank.specs.declared.ranking.RankRow.{RankRow};
ghost use Rattle.cover_answer.specs.CoverAnswer.{RanksIf};

use cov_port::{ByteText, NoMemory, Rows};
use std::alloc::Global;
use std::marker::Brand;
use std::sync::ledger::{Blank, Ledger};
use step_count::Steps;
use test_rank::{TestCovers, rank, rank_text};

/// The names as the rows of a table have them.
fn names_of(alloc: Global, names: &[&str]) -> Result<Rows<ByteText>, NoMemory>
    ensures { IfOk result (λ rows. rows ≡ map (λ name. name.now) names.now) }
{
    let mut rows = Rows::new(alloc);
    'names: for name in names {
        let text = ByteText::from_slice(alloc, name.as_bytes())?;
        rows.push(text)?;
    }
    Ok(rows)
}

/// The table of the ranking of tests with these names. Nothing is done with the number of its steps.
fn table<L: Ledger>(
    alloc: Global,
    blank: Blank,
    covers: &TestCovers,
    names: &Rows<ByteText>,
) -> Result<ByteText, NoMemory>
    requires name { blank.name ≡ L.name }
    requires parts { blank.parts ≡ L.parts }
    requires some { 0 < blank.parts }
    ensures { IfOk result (λ text. (rows : List RankRow) × IsRanking covers.now rows × (text ≡ table_of names.now rows)) }
{
    let mut steps = Steps::<L>::new(blank);
    let ranking = rank(alloc, covers, &mut steps)?;
    rank_text(alloc, &ranking, names)
}

/// What is printed: the table, where tests are ranked, and then the total line.
pub(crate) fn printed(
    alloc: Global,
    ranks: bool,
    covers: &TestCovers,
    names: &[&str],
    total: ByteText,
) -> Result<ByteText, NoMemory>
    ensures { IfOk result (λ text. (rows : List RankRow) × RanksIf ranks covers.now rows
        × (text ≡ (if ranks then table_of (map (λ name. name.now) names.now) rows else []) ++ total)) }
{
    if !ranks {
        return Ok(total);
    }
    let names = names_of(alloc, names)?;
    let mut text = table::<Brand>(alloc, Blank::new(1), covers, &names)?;
    text.append(total.as_slice())?;
    Ok(text)
}
