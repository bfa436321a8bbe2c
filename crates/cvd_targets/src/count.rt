ghost use Rattle.std.specs.Prelude.{◌≡◌, ◌^◌, ◌<◌, ◌≤◌, ℕ, [], IfOk};
ghost use Rattle.cvd_cursor.specs.Numerals.{below};
ghost use Rattle.cvd_targets.specs.Lists.{AreTurns};

use cov_types::Rows;
use sqlite_items::Items;
use std::alloc::{AllocError, Global};

/// The most things that there is room for before one is read.
const FIRST_ROOM: u128 = 4;

/// How often something has to be read: the count; or, where 64 bits don't hold it, more often than that many bytes have pieces.
pub fn turns(count: Option<u64>, bytes: usize) -> u128
    requires { bytes < 2 ^ 63 }
    ensures { (n : ℕ) → count ≡ below (2 ^ 64) n → AreTurns bytes n result }
{
    match count {
        Some(count) => count as u128,
        None => 1 << 64,
    }
}

/// No rows, with room for so many; but for no more than four, since a count is no promise.
pub fn rows_for<T>(alloc: Global, turns: u128) -> Result<Rows<T>, AllocError>
    ensures { IfOk result (λ rows. rows ≡ []) }
{
    let items = Vec::with_capacity(alloc, first_room(turns))?;
    Ok(Rows::from_vec(items))
}

/// No items, with room for so many; but for no more than four, since a count is no promise.
pub fn items_for<T>(alloc: Global, turns: u128) -> Result<Items<T>, AllocError>
    ensures { IfOk result (λ items. items ≡ []) }
{
    let items = Vec::with_capacity(alloc, first_room(turns))?;
    Ok(Items::from_vec(items))
}

fn first_room(turns: u128) -> usize
    ensures { result ≤ 4 }
{
    if turns < FIRST_ROOM {
        turns as usize
    } else {
        FIRST_ROOM as usize
    }
}
