//! Tables of words, marks and operators.

ghost use Rattle.std.specs.Prelude.{◌≡◌, ◌<◌, IfSome};
ghost use Rattle.vlog_grammar.specs.Tokens as tokens;
ghost use Rattle.vlog_reading.specs.Marks as marks;

use cov_types::ByteText;
use vlog_tokens::TokenKind;
use vlog_tree::{BinaryOp, SystemCall, UnaryOp};

/// The number of a word or a mark that the grammar asks for; all others have 0.
pub fn mark(kind: &TokenKind) -> u8
    ensures { result ≡ marks.mark kind.now }
{
    match kind {
        TokenKind::Always => 1,
        TokenKind::Assign => 2,
        TokenKind::Begin => 3,
        TokenKind::Case => 4,
        TokenKind::CaseZ => 5,
        TokenKind::Default => 6,
        TokenKind::Else => 7,
        TokenKind::End => 8,
        TokenKind::EndCase => 9,
        TokenKind::EndGenerate => 10,
        TokenKind::EndModule => 11,
        TokenKind::For => 12,
        TokenKind::Generate => 13,
        TokenKind::GenVar => 14,
        TokenKind::If => 15,
        TokenKind::Initial => 16,
        TokenKind::Input => 17,
        TokenKind::Integer => 18,
        TokenKind::LocalParam => 19,
        TokenKind::Module => 20,
        TokenKind::Output => 21,
        TokenKind::Parameter => 22,
        TokenKind::PosEdge => 23,
        TokenKind::Reg => 24,
        TokenKind::Signed => 25,
        TokenKind::Wire => 26,
        TokenKind::Cover => 27,
        TokenKind::Property => 28,
        TokenKind::Star => 29,
        TokenKind::LessOrEqual => 30,
        TokenKind::Question => 31,
        TokenKind::OpenParen => 32,
        TokenKind::CloseParen => 33,
        TokenKind::OpenBracket => 34,
        TokenKind::CloseBracket => 35,
        TokenKind::OpenBrace => 36,
        TokenKind::CloseBrace => 37,
        TokenKind::Comma => 38,
        TokenKind::Semicolon => 39,
        TokenKind::Colon => 40,
        TokenKind::Dot => 41,
        TokenKind::Hash => 42,
        TokenKind::At => 43,
        TokenKind::EqualSign => 44,
        TokenKind::PlusColon => 45,
        TokenKind::MinusColon => 46,
        _ => 0,
    }
}

/// The level of a binary operator, and the operator.
pub fn infix(kind: &TokenKind) -> Option<(usize, BinaryOp)>
    ensures value { result ≡ tokens.infix_of kind.now }
    ensures low { IfSome result (λ found. found.0 < 12) }
{
    match kind {
        TokenKind::LogicalOr => Some((2, BinaryOp::LogicalOr)),
        TokenKind::LogicalAnd => Some((3, BinaryOp::LogicalAnd)),
        TokenKind::Pipe => Some((4, BinaryOp::Or)),
        TokenKind::Caret => Some((5, BinaryOp::Xor)),
        TokenKind::CaretTilde => Some((5, BinaryOp::CaretTilde)),
        TokenKind::TildeCaret => Some((5, BinaryOp::TildeCaret)),
        TokenKind::Ampersand => Some((6, BinaryOp::And)),
        TokenKind::Equal => Some((7, BinaryOp::Equal)),
        TokenKind::NotEqual => Some((7, BinaryOp::NotEqual)),
        TokenKind::CaseEqual => Some((7, BinaryOp::CaseEqual)),
        TokenKind::CaseNotEqual => Some((7, BinaryOp::CaseNotEqual)),
        TokenKind::Less => Some((8, BinaryOp::Less)),
        TokenKind::LessOrEqual => Some((8, BinaryOp::LessOrEqual)),
        TokenKind::Greater => Some((8, BinaryOp::Greater)),
        TokenKind::GreaterOrEqual => Some((8, BinaryOp::GreaterOrEqual)),
        TokenKind::ShiftLeft => Some((9, BinaryOp::ShiftLeft)),
        TokenKind::ShiftRight => Some((9, BinaryOp::ShiftRight)),
        TokenKind::ArithmeticShiftLeft => Some((9, BinaryOp::ArithmeticShiftLeft)),
        TokenKind::ArithmeticShiftRight => Some((9, BinaryOp::ArithmeticShiftRight)),
        TokenKind::Plus => Some((10, BinaryOp::Add)),
        TokenKind::Minus => Some((10, BinaryOp::Subtract)),
        TokenKind::Star => Some((11, BinaryOp::Multiply)),
        TokenKind::Slash => Some((11, BinaryOp::Divide)),
        TokenKind::Percent => Some((11, BinaryOp::Remainder)),
        _ => None,
    }
}

/// The unary operator that a token is.
pub fn prefix(kind: &TokenKind) -> Option<UnaryOp>
    ensures { result ≡ tokens.prefix_of kind.now }
{
    match kind {
        TokenKind::Plus => Some(UnaryOp::Plus),
        TokenKind::Minus => Some(UnaryOp::Minus),
        TokenKind::Exclamation => Some(UnaryOp::LogicalNot),
        TokenKind::Tilde => Some(UnaryOp::Complement),
        TokenKind::Ampersand => Some(UnaryOp::ReduceAnd),
        TokenKind::TildeAmpersand => Some(UnaryOp::ReduceNand),
        TokenKind::Pipe => Some(UnaryOp::ReduceOr),
        TokenKind::TildePipe => Some(UnaryOp::ReduceNor),
        TokenKind::Caret => Some(UnaryOp::ReduceXor),
        TokenKind::TildeCaret => Some(UnaryOp::ReduceTildeCaret),
        TokenKind::CaretTilde => Some(UnaryOp::ReduceCaretTilde),
        _ => None,
    }
}

/// The system function of this name.
pub fn system_call(name: &ByteText) -> Option<SystemCall>
    ensures { result ≡ tokens.call_of name.now }
{
    if name.as_slice() == b"$signed".as_slice() {
        Some(SystemCall::Signed)
    } else if name.as_slice() == b"$unsigned".as_slice() {
        Some(SystemCall::Unsigned)
    } else if name.as_slice() == b"$clog2".as_slice() {
        Some(SystemCall::CeilLog2)
    } else {
        None
    }
}
