//! Tokens made by name.

ghost use Rattle.std.specs.Prelude.{◌≡◌};
ghost use Rattle.vlog_words.specs.LateKinds as spec;

use vlog_tokens::TokenKind;

/// The name of a variant after the 128th of `TokenKind`.
///
/// Where an enum owns memory, a value at such a variant takes a proof by hand. So all of them are
/// made in one place, `late_kind`.
#[derive(Clone, Copy)]
pub(crate) enum LateKind {
    /// `cover`
    Cover,
    /// `property`
    Property,
    /// `logic`
    Logic,
    /// `always_ff`
    AlwaysFf,
    /// `always_comb`
    AlwaysComb,
    /// `+`
    Plus,
    /// `-`
    Minus,
    /// `*`
    Star,
    /// `/`
    Slash,
    /// `%`
    Percent,
    /// `!`
    Exclamation,
    /// `~`
    Tilde,
    /// `&`
    Ampersand,
    /// `|`
    Pipe,
    /// `^`
    Caret,
    /// `<`
    Less,
    /// `>`
    Greater,
    /// `?`
    Question,
    /// `~&`
    TildeAmpersand,
    /// `~|`
    TildePipe,
    /// `~^`
    TildeCaret,
    /// `^~`
    CaretTilde,
    /// `&&`
    LogicalAnd,
    /// `||`
    LogicalOr,
    /// `==`
    Equal,
    /// `!=`
    NotEqual,
    /// `<=`
    LessOrEqual,
    /// `>=`
    GreaterOrEqual,
    /// `<<`
    ShiftLeft,
    /// `>>`
    ShiftRight,
    /// `===`
    CaseEqual,
    /// `!==`
    CaseNotEqual,
    /// `<<<`
    ArithmeticShiftLeft,
    /// `>>>`
    ArithmeticShiftRight,
    /// `(`
    OpenParen,
    /// `)`
    CloseParen,
    /// `[`
    OpenBracket,
    /// `]`
    CloseBracket,
    /// `{`
    OpenBrace,
    /// `}`
    CloseBrace,
    /// `,`
    Comma,
    /// `;`
    Semicolon,
    /// `:`
    Colon,
    /// `.`
    Dot,
    /// `#`
    Hash,
    /// `@`
    At,
    /// `=`
    EqualSign,
    /// `+:`
    PlusColon,
    /// `-:`
    MinusColon,
}

/// The token of this name.
pub(crate) fn late_kind(name: LateKind) -> TokenKind
    ensures { result ≡ spec.kind_of name }
{
    match name {
        LateKind::Cover => TokenKind::Cover,
        LateKind::Property => TokenKind::Property,
        LateKind::Logic => TokenKind::Logic,
        LateKind::AlwaysFf => TokenKind::AlwaysFf,
        LateKind::AlwaysComb => TokenKind::AlwaysComb,
        LateKind::Plus => TokenKind::Plus,
        LateKind::Minus => TokenKind::Minus,
        LateKind::Star => TokenKind::Star,
        LateKind::Slash => TokenKind::Slash,
        LateKind::Percent => TokenKind::Percent,
        LateKind::Exclamation => TokenKind::Exclamation,
        LateKind::Tilde => TokenKind::Tilde,
        LateKind::Ampersand => TokenKind::Ampersand,
        LateKind::Pipe => TokenKind::Pipe,
        LateKind::Caret => TokenKind::Caret,
        LateKind::Less => TokenKind::Less,
        LateKind::Greater => TokenKind::Greater,
        LateKind::Question => TokenKind::Question,
        LateKind::TildeAmpersand => TokenKind::TildeAmpersand,
        LateKind::TildePipe => TokenKind::TildePipe,
        LateKind::TildeCaret => TokenKind::TildeCaret,
        LateKind::CaretTilde => TokenKind::CaretTilde,
        LateKind::LogicalAnd => TokenKind::LogicalAnd,
        LateKind::LogicalOr => TokenKind::LogicalOr,
        LateKind::Equal => TokenKind::Equal,
        LateKind::NotEqual => TokenKind::NotEqual,
        LateKind::LessOrEqual => TokenKind::LessOrEqual,
        LateKind::GreaterOrEqual => TokenKind::GreaterOrEqual,
        LateKind::ShiftLeft => TokenKind::ShiftLeft,
        LateKind::ShiftRight => TokenKind::ShiftRight,
        LateKind::CaseEqual => TokenKind::CaseEqual,
        LateKind::CaseNotEqual => TokenKind::CaseNotEqual,
        LateKind::ArithmeticShiftLeft => TokenKind::ArithmeticShiftLeft,
        LateKind::ArithmeticShiftRight => TokenKind::ArithmeticShiftRight,
        LateKind::OpenParen => TokenKind::OpenParen,
        LateKind::CloseParen => TokenKind::CloseParen,
        LateKind::OpenBracket => TokenKind::OpenBracket,
        LateKind::CloseBracket => TokenKind::CloseBracket,
        LateKind::OpenBrace => TokenKind::OpenBrace,
        LateKind::CloseBrace => TokenKind::CloseBrace,
        LateKind::Comma => TokenKind::Comma,
        LateKind::Semicolon => TokenKind::Semicolon,
        LateKind::Colon => TokenKind::Colon,
        LateKind::Dot => TokenKind::Dot,
        LateKind::Hash => TokenKind::Hash,
        LateKind::At => TokenKind::At,
        LateKind::EqualSign => TokenKind::EqualSign,
        LateKind::PlusColon => TokenKind::PlusColon,
        LateKind::MinusColon => TokenKind::MinusColon,
    }
}
