//! Laws of the definitions.

ghost use Rattle.std.specs.Prelude.{◌≡◌, ℕ, ◌≤◌, true, List, None, Some, length, nat_eq};
ghost use Rattle.std.specs.List.{starts_with};
ghost use Rattle.vlog_tokens.specs.declared.token.TokenKind.{TokenKind};
ghost use Rattle.vlog_words.specs.SymbolTable.{IsIn, symbols};
ghost use Rattle.vlog_words.specs.Symbols.{symbol_of};

/// The operator or mark that is taken begins the text, and no longer one does.
pub fn longest_symbol()
    ensures taken { (text : List ℕ) (kind : TokenKind) (n : ℕ) → symbol_of text ≡ Some (kind, n)
        → (entry : List ℕ × TokenKind) × IsIn symbols entry × (entry.1 ≡ kind) × (length entry.0 ≡ n)
        × (starts_with nat_eq text entry.0 ≡ true) }
    ensures longest { (text : List ℕ) (kind : TokenKind) (n : ℕ) (entry : List ℕ × TokenKind)
        → symbol_of text ≡ Some (kind, n) → IsIn symbols entry → starts_with nat_eq text entry.0 ≡ true → length entry.0 ≤ n }
    ensures none { (text : List ℕ) (entry : List ℕ × TokenKind)
        → symbol_of text ≡ None → IsIn symbols entry → starts_with nat_eq text entry.0 ≡ true → ⊥ }
{}
