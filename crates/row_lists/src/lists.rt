ghost use Rattle.std.specs.Prelude.{◌≡◌, ◌≢◌, ◌<◌, ◌==◌, ℕ, [], ◌∷◌, ◌++◌, length, if◌then◌else◌, IfOk, OnOk};
ghost use Rattle.row_lists.specs.Lists.{list_at};

use cov_types::{NoMemory, Rows};
use std::alloc::Global;
use std::marker::Model;
use std::mem;

/// Lists of rows, numbered from 0 on. Contracts see them as a list of lists.
#[derive(Drop)]
pub struct RowLists<T> {
    lists: Vec<Rows<T>>,
}

impl<T> Model for RowLists<T> {
    ghost use Rattle.std.specs.Prelude.{List};
    ghost use Rattle.std.specs.Coded.{coded_list};

    ghost Value = { List (List T) };

    ghost coded = { coded_list (coded_list T.code) };

    ghost view = { λ table. table.lists.items };
}

impl<T> RowLists<T> {
    /// No list. It takes no memory.
    pub fn new(alloc: Global) -> RowLists<T>
        ensures { result ≡ [] }
    {
        RowLists {
            lists: Vec::new(alloc),
        }
    }

    /// The rows of a list; none where there is no such list.
    pub fn list(&self, number: usize) -> &[T]
        ensures { result.now ≡ list_at self.now number }
    {
        match self.lists.get(number) {
            Some(list) => list.as_slice(),
            None => &[],
        }
    }

    /// How many lists there are.
    pub fn len(&self) -> usize
        ensures { result ≡ length self.now }
    {
        self.lists.len()
    }
}

/// A list, and the rows behind it.
fn joined<T: Drop>(list: Rows<T>, rows: Rows<T>) -> Result<Rows<T>, NoMemory>
    ensures { IfOk result (λ all. all ≡ list ++ rows) }
{
    let mut all = list.into_vec();
    let mut more = rows.into_vec();
    match all.append(&mut more) {
        Ok(()) => Ok(Rows::from_vec(all)),
        Err(_) => Err(NoMemory),
    }
}

impl<T: Drop> RowLists<T> {
    /// One list more. Its number is how many there were.
    pub fn push(&mut self, list: Rows<T>) -> Result<(), NoMemory>
        ensures { OnOk result (self.new ≡ self.old ++ list ∷ []) }
    {
        match self.lists.push(list) {
            Ok(()) => Ok(()),
            Err(_) => Err(NoMemory),
        }
    }

    /// Puts a row at the end of the list of a number, which has to be there.
    pub fn put(&mut self, number: usize, row: T) -> Result<(), NoMemory>
        requires { number < length self.old }
        ensures rows { OnOk result ((k : ℕ) → list_at self.new k ≡ list_at self.old k ++ (if k == number then row ∷ [] else [])) }
        ensures same { length self.new ≡ length self.old }
    {
        self.lists[number].push(row)
    }

    /// Puts rows at the end of the list of a number, which has to be there. Where memory is wanted that list may be lost.
    pub fn put_all(&mut self, alloc: Global, number: usize, rows: Rows<T>) -> Result<(), NoMemory>
        requires { number < length self.old }
        ensures rows { OnOk result ((k : ℕ) → list_at self.new k ≡ list_at self.old k ++ (if k == number then rows else [])) }
        ensures same { length self.new ≡ length self.old }
    {
        let list = mem::replace(&mut self.lists[number], Rows::new(alloc));
        self.lists[number] = joined(list, rows)?;
        Ok(())
    }

    /// Takes the list of a number, which is empty then; an empty one where there is no such list.
    pub fn take(&mut self, alloc: Global, number: usize) -> Rows<T>
        ensures taken { result ≡ list_at self.old number }
        ensures others { (k : ℕ) → k ≢ number → list_at self.new k ≡ list_at self.old k }
    {
        if number >= self.lists.len() {
            return Rows::new(alloc);
        }
        mem::replace(&mut self.lists[number], Rows::new(alloc))
    }
}
