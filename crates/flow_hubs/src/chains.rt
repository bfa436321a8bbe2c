ghost use Rattle.std.specs.Prelude.{◌≡◌, ◌<◌, ◌≤◌, ◌++◌, ℕ, IsTrue, IfOk, length};
ghost use Rattle.flow_graph.specs.Graph.{HasEdge, next_of};
ghost use Rattle.flow_hubs.specs.Adding.{Adds};
ghost use Rattle.flow_hubs.specs.Chained.{AreLinked, IsBack, row_from, rows_of};

use cov_types::NoMemory;
use std::alloc::Global;
use std::marker::Model;

/// A number of a row, and the link that was put into the row before it: link k goes by k + 1, and none by 0.
#[derive(Clone, Copy)]
struct Link {
    number: u32,
    before: u32,
}

/// Rows of numbers that grow. An empty row costs four bytes, and a number eight: most rows of many stay empty or short, and a vector for
/// each would cost several times as much.
#[derive(Drop)]
pub struct Chains {
    /// For each row its last link.
    heads: Vec<u32>,
    links: Vec<Link>,
}

impl Model for Chains {
    ghost use Rattle.std.specs.Prelude.{ℕ, List};

    ghost Value = { List (List ℕ) };

    ghost use Rattle.flow_hubs.specs.Chained.{AreLinked, rows_of};

    ghost view = { λ c. rows_of c.heads.items c.links.items };

    ghost invariant = { λ c. AreLinked c.heads.items c.links.items };
}

/// Whether the last number of a row is this one.
fn ends_with(heads: &[u32], links: &[Link], at: usize, number: u32) -> bool
    requires linked { AreLinked heads.now links.now }
    requires row { at < length heads.now }
    ensures { IsTrue result → HasEdge (rows_of heads.now links.now) at number }
{
    let head = heads[at];
    head > 0 && links[head as usize - 1].number == number
}

/// Puts a number behind those of a row.
fn put(heads: &mut Vec<u32>, links: &mut Vec<Link>, at: usize, number: u32) -> Result<(), NoMemory>
    requires linked { AreLinked heads.old.items links.old.items }
    requires row { at < length heads.old.items }
    ensures linked { AreLinked heads.new.items links.new.items }
    ensures adds { IfOk result (λ _. Adds (rows_of heads.old.items links.old.items) (rows_of heads.new.items links.new.items)
        (λ i x. (i ≡ at) × (x ≡ number))) }
{
    let count = links.len();
    if count >= u32::MAX as usize {
        return Err(NoMemory);
    }
    let before = heads.as_slice()[at];
    links.push(Link { number, before })?;
    heads[at] = count as u32 + 1;
    Ok(())
}

/// Puts the numbers of a row behind those of a list, the last of the row first.
fn read_back(links: &[Link], head: u32, row: &mut Vec<u32>) -> Result<(), NoMemory>
    requires head { head ≤ length links.now }
    requires back { IsBack links.now }
    ensures { IfOk result (λ _. row.new.items ≡ row.old.items ++ row_from links.now head) }
{
    let mut at = head;
    'links: while at > 0 {
        let link = links[at as usize - 1];
        row.push(link.number)?;
        at = link.before;
    }
    Ok(())
}

impl Chains {
    /// So many empty rows.
    pub fn new(alloc: Global, count: usize) -> Result<Chains, NoMemory>
        ensures many { IfOk result (λ rows. length rows ≡ count) }
        ensures empty { IfOk result (λ rows. (i x : ℕ) → HasEdge rows i x → ⊥) }
    {
        let heads = vec![in alloc; 0; count]?;
        let links = Vec::new(alloc);
        Ok(Chains { heads, links })
    }

    /// How many rows there are.
    pub fn len(&self) -> usize
        ensures { result ≡ length self.now }
    {
        self.heads.as_slice().len()
    }

    /// Puts a number into a row where it is not the last of it. More than 2 ^ 32 - 1 numbers are want of memory.
    pub fn note(&mut self, at: usize, number: u32) -> Result<(), NoMemory>
        requires { at < length self.old }
        ensures { IfOk result (λ _. Adds self.old self.new (λ i x. (i ≡ at) × (x ≡ number))) }
    {
        if ends_with(self.heads.as_slice(), self.links.as_slice(), at, number) {
            return Ok(());
        }
        put(&mut self.heads, &mut self.links, at, number)
    }

    /// Reads a row into a list, in place of what it had. The number that was put last comes first.
    pub fn read(&self, at: usize, row: &mut Vec<u32>) -> Result<(), NoMemory>
        requires { at < length self.now }
        ensures { IfOk result (λ _. row.new.items ≡ next_of self.now at) }
    {
        row.clear();
        read_back(self.links.as_slice(), self.heads.as_slice()[at], row)
    }
}
