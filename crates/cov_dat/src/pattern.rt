ghost use Rattle.std.specs.Prelude.{◌≡◌, ◌==◌, ◌||◌};
ghost use Rattle.cov_dat.specs.FrontFits.{FrontTells, IsShorter};
ghost use Rattle.cov_dat.specs.Patterns.{is_kept, spells};

use crate::front::Front;
use crate::key_fields::kind;

/// Whether the pattern spells the key's type. It takes no memory, and steps in proportion to the product of the two lengths at most.
pub fn kept(key: &[u8], pattern: &[u8]) -> bool
    ensures { result ≡ is_kept key.now pattern.now }
{
    spells(pattern, kind(key))
}

/// Whether the pattern spells the whole text.
fn spells(pattern: &[u8], text: &[u8]) -> bool
    ensures { result ≡ spells pattern.now text.now }
{
    let mut pattern = pattern;
    let mut text = text;
    // Whether a star stands before what is left of the pattern, which then may begin at any place of the text.
    let mut behind_star = false;
    'places: loop {
        match match_front(pattern, text) {
            Front::Star(pattern_left, text_left) => {
                pattern = pattern_left;
                text = text_left;
                behind_star = true;
            }
            Front::Whole => return true,
            Front::Misfit => {
                if !behind_star || text.is_empty() {
                    return false;
                }
                text = &text[1..];
            }
        }
    }
}

/// Matches the signs of the pattern before its first star.
fn match_front<'a>(pattern: &'a [u8], text: &'a [u8]) -> Front<'a>
    ensures tells { FrontTells result pattern.now text.now }
    ensures shorter { IsShorter result pattern.now text.now }
{
    let mut at = 0;
    'signs: while at < pattern.len() {
        if pattern[at] == b'*' {
            return Front::Star(&pattern[at + 1..], &text[at..]);
        }
        if at == text.len() || !fits(pattern[at], text[at]) {
            return Front::Misfit;
        }
        at += 1;
    }
    if at == text.len() {
        return Front::Whole;
    }
    Front::Misfit
}

/// Whether a sign other than a star spells the byte.
fn fits(sign: u8, byte: u8) -> bool
    ensures { result ≡ (sign == 63 || sign == byte) }
{
    sign == b'?' || sign == byte
}
