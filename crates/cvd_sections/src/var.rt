//! Variables.

ghost use Rattle.std.specs.Prelude.{◌≡◌, ◌≤◌, ◌^◌, ◌==◌, ◌&&◌, ◌||◌, nat_le, nat_lt, true};
ghost use Rattle.cov_types.specs.Limits.{most};
ghost use Rattle.cov_types.specs.declared.kind.VarKind.TheVariants as kinds;
ghost use Rattle.cov_types.specs.declared.limit.LimitName.TheVariants as limit;
ghost use Rattle.cov_types.specs.declared.var.Var.{Var};
ghost use Rattle.cvd_cursor.specs.Reads.{Reads, marks};
ghost use Rattle.cvd_text.specs.Lines.{no_load, stands};
ghost use Rattle.cvd_text.specs.Pieces.{marks_of};
ghost use Rattle.cvd_text.specs.Sections.{var_line, var_lines};
ghost use Rattle.cvd_text.specs.Targets.{same_kind};
ghost use Rattle.design_meaning.specs.WellTyped.{is_width};
ghost use Rattle.cvd_sections.specs.Closing.{Judges};
ghost use Rattle.cvd_sections.specs.Fields.{HoldsRest, HoldsTwo, HoldsVar, HoldsVars, load_of, rest_tokens, var_marks};

use crate::ending::close;
use crate::field::{Two, two};
use crate::heading::{read_heading, wants_more};
use crate::kind::read_kind;
use cov_types::{Rows, Var, VarKind};
use cvd_cursor::{Cursor, ReadFault, hex};
use std::alloc::Global;

/// The greatest number of bits that the variables of a design hold.
const MOST_BITS: u32 = 16_777_216;

/// The greatest number of words of a variable.
const MOST_WORDS: u32 = 65_536;

/// The variables of a design, and how many bits they hold: at least one each, and at most 16,777,216 in all.
#[derive(Drop)]
pub struct Vars {
    pub vars: Rows<Var>,
    pub bits: u32,
}

/// The variables of a design.
pub fn read_vars(alloc: Global, cursor: &mut Cursor<'_>) -> Result<Vars, ReadFault>
    ensures { Reads (λ vars. marks_of no_load (var_lines vars)) HoldsVars cursor.old result cursor.new }
{
    let count = read_heading(cursor, b"vars")?;
    cursor.end_line(true)?;
    let mut vars = Rows::new(alloc);
    let mut bits = 0u32;
    while wants_more(count, vars.len()) {
        let next = read_var(cursor, bits)?;
        vars.push(next.0)?;
        bits = next.1;
    }
    Ok(Vars { vars, bits })
}

/// A variable behind others that hold so many bits, and how many they hold then.
fn read_var(cursor: &mut Cursor<'_>, bits: u32) -> Result<(Var, u32), ReadFault>
    requires { bits ≤ 16777216 }
    ensures { Reads (var_marks (load_of bits)) (HoldsVar bits) cursor.old result cursor.new }
{
    let size = two(cursor)?;
    let rest = start_and_kind(cursor)?;
    let found = var_of(size, rest, bits);
    close(cursor, found)
}

fn start_and_kind(cursor: &mut Cursor<'_>) -> Result<(Option<u128>, VarKind), ReadFault>
    ensures { Reads (marks rest_tokens) HoldsRest cursor.old result cursor.new }
{
    let start = hex(cursor)?;
    let kind = read_kind(cursor)?;
    Ok((start, kind))
}

/// A variable whose numbers go together, where there is room for it.
fn var_of(size: Two, rest: (Option<u128>, VarKind), bits: u32) -> Option<(Var, u32)>
    requires { bits ≤ 16777216 }
    ensures { (v : Var) → HoldsTwo (v.width, v.words) size → HoldsRest (v.start, v.kind) rest
        → Judges (λ w. stands (load_of bits) (var_line w)) (HoldsVar bits) v result }
{
    let (width, words) = size;
    let (start, kind) = rest;
    let (Some(width), Some(words)) = (width, words) else {
        return None;
    };
    if !is_size(width, words) {
        return None;
    }
    let Some(start) = start else {
        return None;
    };
    if !may_start(width, words, start, kind) {
        return None;
    }
    let bits = bits + width * words;
    if bits > MOST_BITS {
        return None;
    }
    Some((
        Var {
            width: width as u8,
            words,
            start,
            kind,
        },
        bits,
    ))
}

/// Whether a variable may have this width and so many words.
fn is_size(width: u32, words: u32) -> bool
    ensures test { result ≡ (is_width width && nat_le 1 words && nat_le words (most limit.MemoryWords)) }
    ensures small { result ≡ true → (1 ≤ width) × (width ≤ 128) × (1 ≤ words) × (words ≤ 65536) }
{
    1 <= width && width <= 128 && 1 <= words && words <= MOST_WORDS
}

/// Whether a variable may start so: at 0, or a register of one word at what fits it.
fn may_start(width: u32, words: u32, start: u128, kind: VarKind) -> bool
    ensures { result ≡ (start == 0 || (same_kind kind kinds.Reg && words == 1 && nat_lt start (2 ^ width))) }
{
    start == 0 || (kind == VarKind::Reg && words == 1 && fits(width, start))
}

fn fits(width: u32, value: u128) -> bool
    ensures { result ≡ nat_lt value (2 ^ width) }
{
    if width >= 128 {
        return true;
    }
    value < 1u128 << width
}
