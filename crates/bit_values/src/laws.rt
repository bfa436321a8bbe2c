//! Laws of the values that the calls compute, for the proofs of other crates: a call of one of these
//! functions does nothing, and its contract is the law.

ghost use Rattle.bit_values.specs.Laws.{ModuloFits, AddFits, SubFits, MulFits, NegFits, TruncateFits, UdivFits, UremFits, SdivFits, SremFits, AndFits};
ghost use Rattle.bit_values.specs.Laws.{OrFits, XorFits, NotFits, ShlFits, ShrFits, SarFits, SelectFits, AndBits, OrBits, XorBits, RedAndBits, RedOrBits};
ghost use Rattle.bit_values.specs.Laws.{RedXorBits, ExtendFits, ConcatFits, ReplaceFits, ExtendKeepsSigned, TruncateUndoesExtend, ExtendBits, ExtendZeros};
ghost use Rattle.bit_values.specs.Laws.{ExtendSigns, TruncateBits, TruncateZeros, ConcatLowBits, ConcatHighBits, NotBits, ShlZeros, ShlBits, ShrBits};
ghost use Rattle.bit_values.specs.Laws.{SarBits, SarSigns, SelectBits, SelectZeros, SelectPastTop, SelectBelow, SelectConcatHigh, SelectConcatLow};
ghost use Rattle.bit_values.specs.Laws.{ReplacePartBits, ReplaceLowBits, ReplaceHighBits, ReplaceZeros, ReplacePastTop, ReplaceBelow, SelectReplaced};
ghost use Rattle.bit_values.specs.Laws.{SelectBelowReplaced, SelectAboveReplaced};

/// Results are values of their width.
pub fn results_fit()
    ensures modulo { ModuloFits }
    ensures extend { ExtendFits }
    ensures concat { ConcatFits }
    ensures replace { ReplaceFits }
{}

/// Results of arithmetic are values of their width.
pub fn arithmetic_fits()
    ensures add { AddFits }
    ensures sub { SubFits }
    ensures mul { MulFits }
    ensures neg { NegFits }
    ensures udiv { UdivFits }
    ensures urem { UremFits }
    ensures sdiv { SdivFits }
    ensures srem { SremFits }
{}

/// Results of bitwise operators, shifts and selections are values of their width.
pub fn bitwise_fits()
    ensures and { AndFits }
    ensures or { OrFits }
    ensures xor { XorFits }
    ensures not { NotFits }
    ensures shl { ShlFits }
    ensures shr { ShrFits }
    ensures sar { SarFits }
    ensures select { SelectFits }
    ensures truncate { TruncateFits }
{}

/// The bits of `and`, `or` and exclusive `or`.
pub fn bitwise_bits()
    ensures and { AndBits }
    ensures or { OrBits }
    ensures xor { XorBits }
{}

/// What the reductions say of the bits.
pub fn reduction_bits()
    ensures and { RedAndBits }
    ensures or { RedOrBits }
    ensures xor { RedXorBits }
{}

/// Extension by the sign bit keeps the signed reading.
pub fn extend_keeps_signed()
    ensures { ExtendKeepsSigned }
{}

/// Truncation of an extension is the value.
pub fn truncate_undoes_extend()
    ensures { TruncateUndoesExtend }
{}

/// The bits of an extension.
pub fn extend_bits()
    ensures value { ExtendBits }
    ensures zeros { ExtendZeros }
    ensures signs { ExtendSigns }
{}

/// The bits of a truncation.
pub fn truncate_bits()
    ensures value { TruncateBits }
    ensures zeros { TruncateZeros }
{}

/// The bits of a concatenation.
pub fn concat_bits()
    ensures low { ConcatLowBits }
    ensures high { ConcatHighBits }
{}

/// The bits of a negation.
pub fn not_bits()
    ensures { NotBits }
{}

/// The bits of shifts.
pub fn shift_bits()
    ensures shl_zeros { ShlZeros }
    ensures shl_value { ShlBits }
    ensures shr_value { ShrBits }
    ensures sar_value { SarBits }
    ensures sar_signs { SarSigns }
{}

/// The bits of a selection.
pub fn select_bits()
    ensures value { SelectBits }
    ensures zeros { SelectZeros }
{}

/// A selection outside the value is 0, however far outside it lies.
pub fn select_outside()
    ensures past_top { SelectPastTop }
    ensures below { SelectBelow }
{}

/// The parts of a concatenation are selected from it.
pub fn select_concat()
    ensures high { SelectConcatHigh }
    ensures low { SelectConcatLow }
{}

/// The bits of a replacement.
pub fn replace_bits()
    ensures part { ReplacePartBits }
    ensures low { ReplaceLowBits }
    ensures high { ReplaceHighBits }
    ensures zeros { ReplaceZeros }
{}

/// A replacement outside the value changes nothing, however far outside it lies.
pub fn replace_outside()
    ensures past_top { ReplacePastTop }
    ensures below { ReplaceBelow }
{}

/// A part is selected again from where it was put, and elsewhere the old bits are.
pub fn select_replaced()
    ensures part { SelectReplaced }
    ensures below { SelectBelowReplaced }
    ensures above { SelectAboveReplaced }
{}
