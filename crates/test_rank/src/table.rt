ghost use Rattle.std.specs.Prelude.{◌≡◌, [], ◌∷◌, ◌++◌, codes, decimal, get_or, IfOk, OnOk};
ghost use Rattle.test_rank.specs.Ranking.{rank_text as table_of, row_line};

use crate::ranking::{RankRow, Ranking};
use cov_types::{ByteText, NoMemory, Rows};
use itoa::Buffer;
use std::alloc::{AllocError, Global};

/// The table of a ranking, with the names of the tests. A test without a name has an empty one.
pub fn rank_text(
    alloc: Global,
    ranking: &Ranking,
    names: &Rows<ByteText>,
) -> Result<ByteText, NoMemory>
    ensures { IfOk result (λ text. text ≡ table_of names.now ranking.now) }
{
    let mut text = Vec::from_slice(alloc, b"Rank RankPts Covered Test\n")?;
    'rows: for row in ranking.rows() {
        push_row(&mut text, names, row)?;
    }
    Ok(ByteText::from_vec(text))
}

fn push_row(text: &mut Vec<u8>, names: &Rows<ByteText>, row: &RankRow) -> Result<(), AllocError>
    ensures { OnOk result (text.new.items ≡ text.old.items ++ row_line names.now row.now) }
{
    push_number(text, u64::from(row.rank))?;
    push_number(text, row.rank_points)?;
    push_number(text, row.covered)?;
    text.extend_from_slice(name_of(names, row.test as usize))?;
    text.extend_from_slice(b"\n")?;
    Ok(())
}

/// The name of a test, empty where it has none.
fn name_of(names: &Rows<ByteText>, test: usize) -> &[u8]
    ensures { result.now ≡ get_or names.now test [] }
{
    if test >= names.len() {
        return &[];
    }
    names.as_slice()[test].as_slice()
}

/// Puts a number and a blank at the end.
fn push_number(text: &mut Vec<u8>, number: u64) -> Result<(), AllocError>
    ensures { OnOk result (text.new.items ≡ text.old.items ++ decimal number ++ codes " ") }
{
    let mut buffer = Buffer::new();
    text.extend_from_slice(buffer.format(number).as_bytes())?;
    text.extend_from_slice(b" ")
}
