ghost use Rattle.std.specs.Prelude.{◌≡◌, IfOk, Some, Err};
ghost use Rattle.vlog_tree.specs.declared.expression.RangeExpr.{RangeExpr as Range};
ghost use Rattle.scope_meaning.specs.Constants as constants;
ghost use Rattle.scope_meaning.specs.Constants.{and_then};
ghost use Rattle.scope_meaning.specs.Ranges as ranges;
ghost use Rattle.elab_ranges.specs.Bounds.{IsMemory};
ghost use Rattle.flat_source_meaning.specs.Variables as spec;
ghost use Rattle.flat_variables.specs.Sizes.{words_of};

use cov_types::NoMemory;
use elab_constants::Names;
use elab_ranges::{RangeFault, memory_range};
use elab_types::FlatVar;
use std::alloc::Global;
use vlog_tree::RangeExpr;

/// How many words a memory has, and the lowest number of a word.
#[derive(Clone, Copy, Debug)]
pub(crate) struct Memory {
    pub(crate) words: u32,
    pub(crate) low: u32,
}

/// The memory where the range declares none.
fn of_fault(fault: RangeFault) -> Result<Option<Memory>, NoMemory>
    ensures { (known : constants.Names) (range : Range) → IsMemory known range (Err fault)
        → IfOk result (λ memory. words_of memory ≡ ranges.words known range) }
{
    match fault {
        RangeFault::NoMemory => Err(NoMemory),
        RangeFault::NotConstant => Ok(None),
        RangeFault::BadSelect => Ok(None),
        RangeFault::BadRange => Ok(None),
        RangeFault::WidthPast128 => Ok(None),
    }
}

/// The memory that a range declares.
fn of_range<N: Names>(
    alloc: Global,
    names: &N,
    range: &RangeExpr,
) -> Result<Option<Memory>, NoMemory>
    ensures { (known : constants.Names) → N.environment names.now ≡ constants.constants known
        → IfOk result (λ memory. words_of memory ≡ ranges.words known range.now) }
{
    match memory_range(alloc, names, range) {
        Ok(words) => {
            if words.count > 4_294_967_295 {
                return Err(NoMemory);
            }
            Ok(Some(Memory {
                words: words.count as u32,
                low: words.low,
            }))
        }
        Err(fault) => of_fault(fault),
    }
}

/// The memory that a reg is, if it has words.
pub(crate) fn declared_memory<N: Names>(
    alloc: Global,
    names: &N,
    range: &Option<RangeExpr>,
) -> Result<Option<Memory>, NoMemory>
    ensures { (known : constants.Names) → N.environment names.now ≡ constants.constants known
        → IfOk result (λ memory. words_of memory ≡ and_then range.now (ranges.words known)) }
{
    match range {
        Some(range) => of_range(alloc, names, range),
        None => Ok(None),
    }
}

/// The variable with the words of a memory.
pub(crate) fn as_memory(of: FlatVar, memory: Option<Memory>) -> FlatVar
    ensures { result ≡ spec.as_memory of (words_of memory) }
{
    match memory {
        Some(memory) => {
            let mut of = of;
            of.words = memory.words;
            of.word_low = memory.low;
            of.memory = true;
            of
        }
        None => of,
    }
}
