//! Operators and other marks, the longest first.

ghost use Rattle.std.specs.Prelude.{◌≡◌, ◌≤◌, ◌<◌, length, IfSome, IsSome};
ghost use Rattle.vlog_words.specs.Symbols as spec;

use crate::late::{LateKind, late_kind};
use vlog_tokens::TokenKind;

/// The first of these spellings that the text begins with.
macro_rules! begun {
    ($text:expr; $($spelling:literal => $kind:ident,)*) => {{
        $(if $text.starts_with($spelling) {
            return Some(late_kind(LateKind::$kind));
        })*
        None
    }};
}

/// The operator of three bytes that the text begins with.
fn of_three(text: &[u8]) -> Option<TokenKind>
    ensures value { result ≡ spec.first_at spec.of_three text.now }
    ensures within { IsSome result → 3 ≤ length text.now }
{
    begun! { text;
        b"===" => CaseEqual,
        b"!==" => CaseNotEqual,
        b"<<<" => ArithmeticShiftLeft,
        b">>>" => ArithmeticShiftRight,
    }
}

/// The operator or mark of two bytes that the text begins with.
fn of_two(text: &[u8]) -> Option<TokenKind>
    ensures value { result ≡ spec.first_at spec.of_two text.now }
    ensures within { IsSome result → 2 ≤ length text.now }
{
    begun! { text;
        b"~&" => TildeAmpersand,
        b"~|" => TildePipe,
        b"~^" => TildeCaret,
        b"^~" => CaretTilde,
        b"&&" => LogicalAnd,
        b"||" => LogicalOr,
        b"==" => Equal,
        b"!=" => NotEqual,
        b"<=" => LessOrEqual,
        b">=" => GreaterOrEqual,
        b"<<" => ShiftLeft,
        b">>" => ShiftRight,
        b"+:" => PlusColon,
        b"-:" => MinusColon,
    }
}

/// The operator of one byte that the text begins with.
fn operator_of_one(text: &[u8]) -> Option<TokenKind>
    ensures value { result ≡ spec.first_at spec.operators_of_one text.now }
    ensures within { IsSome result → 1 ≤ length text.now }
{
    begun! { text;
        b"+" => Plus,
        b"-" => Minus,
        b"*" => Star,
        b"/" => Slash,
        b"%" => Percent,
        b"!" => Exclamation,
        b"~" => Tilde,
        b"&" => Ampersand,
        b"|" => Pipe,
        b"^" => Caret,
        b"<" => Less,
        b">" => Greater,
        b"?" => Question,
    }
}

/// The mark of one byte that the text begins with.
fn mark_of_one(text: &[u8]) -> Option<TokenKind>
    ensures value { result ≡ spec.first_at spec.marks_of_one text.now }
    ensures within { IsSome result → 1 ≤ length text.now }
{
    begun! { text;
        b"(" => OpenParen,
        b")" => CloseParen,
        b"[" => OpenBracket,
        b"]" => CloseBracket,
        b"{" => OpenBrace,
        b"}" => CloseBrace,
        b"," => Comma,
        b";" => Semicolon,
        b":" => Colon,
        b"." => Dot,
        b"#" => Hash,
        b"@" => At,
        b"=" => EqualSign,
    }
}

/// The operator or mark of one byte that the text begins with.
fn of_one(text: &[u8]) -> Option<TokenKind>
    ensures value { result ≡ spec.first_at spec.of_one text.now }
    ensures within { IsSome result → 1 ≤ length text.now }
{
    match operator_of_one(text) {
        None => mark_of_one(text),
        Some(kind) => Some(kind),
    }
}

/// The longest operator or mark that the text begins with, and how many bytes it has.
#[tactic(auto, unfolding(crate::specs::Symbols::symbol_of))]
pub fn symbol_of(text: &[u8]) -> Option<(TokenKind, usize)>
    ensures value { result ≡ spec.symbol_of text.now }
    ensures within { IfSome result (λ found. (0 < found.1) × (found.1 ≤ length text.now)) }
{
    if let Some(kind) = of_three(text) {
        return Some((kind, 3));
    }
    if let Some(kind) = of_two(text) {
        return Some((kind, 2));
    }
    of_one(text).map(|kind| (kind, 1))
}
