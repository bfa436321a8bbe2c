//! Limits on tokens.

ghost use Rattle.std.specs.Prelude.{◌≡◌, ◌+◌, ◌<◌, ◌≤◌, ◌^◌, ◌∷◌, List, []};
ghost use Rattle.vlog_lexer.specs.Limits as spec;
ghost use Rattle.vlog_lexer.specs.LimitsKept as kept;
ghost use Rattle.vlog_lexer.specs.LimitsKept.{AreCounts};
ghost use Rattle.vlog_tokens.specs.declared.token.TokenKind.{TokenKind};

use cov_types::LimitName;
use vlog_tokens::TokenKind;

/// What a token is to the limits.
#[derive(Clone, Copy)]
pub(crate) enum Role {
    Opens,
    OpensBrace,
    Closes,
    ClosesBrace,
    Separates,
    Ends,
    Operates,
    Branches,
    Process,
    Other,
}

fn role_of(kind: &TokenKind) -> Role
    ensures { result ≡ spec.role_of kind.now }
{
    match kind {
        TokenKind::Begin
        | TokenKind::Generate
        | TokenKind::Case
        | TokenKind::CaseZ
        | TokenKind::OpenParen
        | TokenKind::OpenBracket => Role::Opens,
        TokenKind::End
        | TokenKind::EndGenerate
        | TokenKind::EndCase
        | TokenKind::CloseParen
        | TokenKind::CloseBracket => Role::Closes,
        TokenKind::If | TokenKind::For => Role::Branches,
        TokenKind::Always
        | TokenKind::AlwaysFf
        | TokenKind::AlwaysComb
        | TokenKind::Initial
        | TokenKind::Function
        | TokenKind::Module => Role::Process,
        TokenKind::Plus
        | TokenKind::Minus
        | TokenKind::Star
        | TokenKind::Slash
        | TokenKind::Percent
        | TokenKind::Exclamation
        | TokenKind::Tilde
        | TokenKind::Ampersand
        | TokenKind::Pipe
        | TokenKind::Caret
        | TokenKind::Less
        | TokenKind::Greater
        | TokenKind::Question
        | TokenKind::TildeAmpersand
        | TokenKind::TildePipe
        | TokenKind::TildeCaret
        | TokenKind::CaretTilde
        | TokenKind::LogicalAnd
        | TokenKind::LogicalOr
        | TokenKind::Equal
        | TokenKind::NotEqual
        | TokenKind::LessOrEqual
        | TokenKind::GreaterOrEqual
        | TokenKind::ShiftLeft
        | TokenKind::ShiftRight
        | TokenKind::CaseEqual
        | TokenKind::CaseNotEqual
        | TokenKind::ArithmeticShiftLeft
        | TokenKind::ArithmeticShiftRight => Role::Operates,
        TokenKind::OpenBrace => Role::OpensBrace,
        TokenKind::CloseBrace => Role::ClosesBrace,
        TokenKind::Comma => Role::Separates,
        TokenKind::Semicolon => Role::Ends,
        _ => Role::Other,
    }
}

fn name_length(kind: &TokenKind) -> usize
    ensures { result ≡ spec.name_length kind.now }
{
    match kind {
        TokenKind::Name(bytes) => bytes.len(),
        _ => 0,
    }
}

/// What the limits count, at a place.
#[derive(Clone, Copy)]
pub(crate) struct Counts {
    pub nesting: usize,
    pub braces: usize,
    pub operators: usize,
    pub branches: usize,
}

fn nested(role: Role, before: usize) -> usize
    requires { before + 1 < 2 ^ 64 }
    ensures value { result ≡ spec.nested role before }
    ensures small { result ≤ before + 1 }
{
    match role {
        Role::Opens | Role::OpensBrace => before + 1,
        Role::Closes | Role::ClosesBrace => before.saturating_sub(1),
        _ => before,
    }
}

fn braced(role: Role, before: usize) -> usize
    requires { before + 1 < 2 ^ 64 }
    ensures value { result ≡ spec.braced role before }
    ensures small { result ≤ before + 1 }
{
    match role {
        Role::OpensBrace => before + 1,
        Role::ClosesBrace => before.saturating_sub(1),
        _ => before,
    }
}

fn operated(role: Role, braces: usize, before: usize) -> usize
    requires { before + 1 < 2 ^ 64 }
    ensures value { result ≡ kept.operated role braces before }
    ensures small { result ≤ before + 1 }
{
    match role {
        Role::Operates => before + 1,
        Role::Separates => { if 0 < braces { before + 1 } else { before } }
        Role::Ends => 0,
        _ => before,
    }
}

fn branched(role: Role, before: usize) -> usize
    requires { before + 1 < 2 ^ 64 }
    ensures value { result ≡ kept.branched role before }
    ensures small { result ≤ before + 1 }
{
    match role {
        Role::Branches => before + 1,
        Role::Process => 0,
        _ => before,
    }
}

impl Counts {
    /// The counts before the first token.
    pub(crate) fn none() -> Counts
        ensures value { AreCounts [] result }
        ensures small { result.nesting + result.braces + result.operators + result.branches ≡ 0 }
    {
        Counts {
            nesting: 0,
            braces: 0,
            operators: 0,
            branches: 0,
        }
    }

    /// The counts with one token more.
    #[tactic(auto, using(crate::proofs::LimitLemmas::operators_next, crate::proofs::LimitLemmas::branches_next))]
    pub(crate) fn with_token(self, kind: &TokenKind) -> Counts
        requires nesting { self.nesting + 1 < 2 ^ 64 }
        requires braces { self.braces + 1 < 2 ^ 64 }
        requires operators { self.operators + 1 < 2 ^ 64 }
        requires branches { self.branches + 1 < 2 ^ 64 }
        ensures value { (before : List TokenKind) → AreCounts before self → AreCounts (kind.now ∷ before) result }
        ensures nesting { result.nesting ≤ self.nesting + 1 }
        ensures braces { result.braces ≤ self.braces + 1 }
        ensures operators { result.operators ≤ self.operators + 1 }
        ensures branches { result.branches ≤ self.branches + 1 }
    {
        let role = role_of(kind);
        Counts {
            nesting: nested(role, self.nesting),
            braces: braced(role, self.braces),
            operators: operated(role, self.braces, self.operators),
            branches: branched(role, self.branches),
        }
    }

    /// The limit that is passed at this token, which these counts have counted.
    pub(crate) fn limit_passed(self, kind: &TokenKind) -> Option<LimitName>
        ensures { (before : List TokenKind) → AreCounts (kind.now ∷ before) self
            → result ≡ spec.limit_passed (kind.now ∷ before) }
    {
        limit_at(name_length(kind), self)
    }
}

fn limit_at(name_bytes: usize, counts: Counts) -> Option<LimitName>
    ensures { result ≡ spec.limit_at name_bytes counts.nesting counts.operators counts.branches }
{
    if name_bytes > 255 {
        Some(LimitName::Identifier)
    } else if counts.nesting > 100 {
        Some(LimitName::Nesting)
    } else if counts.operators > 500 {
        Some(LimitName::Operators)
    } else if counts.branches > 500 {
        Some(LimitName::Branches)
    } else {
        None
    }
}
