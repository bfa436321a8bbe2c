//! Laws of the definitions.

ghost use Rattle.std.specs.Prelude.{◌≡◌, ℕ, List, Result};
ghost use Rattle.vlog_lexer.specs.Origins.{FaultFromOne, TokensFromOne};
ghost use Rattle.vlog_lexer.specs.Reading.{IsReadingOf};
ghost use Rattle.vlog_lexer.specs.Spellings.{BasedAreTaken, DecimalsAreTaken, NamesAreLongest, NamesAreTaken, StringsAreTaken};
ghost use Rattle.vlog_lexer.specs.Spellings.{SystemNamesAreTaken, WideDecimals};
ghost use Rattle.vlog_lexer.specs.declared.fault.LexFault.{LexFault};
ghost use Rattle.vlog_tokens.specs.declared.token_list.TokenList.{TokenList};

/// A text has one reading at most: one list of tokens and coverage comments, or one first fault.
pub fn one_reading()
    ensures { (file : ℕ) (text : List ℕ) (a b : Result TokenList LexFault)
        → IsReadingOf file text a → IsReadingOf file text b → a ≡ b }
{}

/// Where an identifier begins, the longest is taken: it is refused, a reserved word or a name.
pub fn longest_name()
    ensures split { NamesAreLongest }
    ensures taken { NamesAreTaken }
    ensures system { SystemNamesAreTaken }
{}

/// A string's spelling is the token of the bytes that it spells.
pub fn spelled_strings()
    ensures { StringsAreTaken }
{}

/// A number's spelling is the number that it spells, or the flaw that it has.
pub fn spelled_numbers()
    ensures decimal { DecimalsAreTaken }
    ensures wide { WideDecimals }
    ensures based { BasedAreTaken }
{}

/// Lines and columns are counted from 1, in tokens and in faults.
pub fn places_from_one()
    ensures tokens { TokensFromOne }
    ensures fault { FaultFromOne }
{}
